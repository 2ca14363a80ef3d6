//! The program that the event loop calls.
use anyhow::Result;
use bytes::Bytes;
use event_loop::{Next, Program, Situation};
use protocol::{Core, Delivery};
use std::io::Print;
use wire_node::WireNode;

/// Greets the group once it is not alone in it, and prints the greetings.
#[derive(Drop)]
pub struct Greeter<'a, R> {
    rt: &'a R,
    has_greeted: bool,
    /// How many greetings are printed before it ends.
    left: usize,
    /// What ended it sooner.
    result: Result<()>,
}

impl<'a, R: Print + AllocGlobal> Greeter<'a, R> {
    /// Makes the program of a node in a group of so many.
    pub fn new(rt: &'a R, nodes: usize) -> Greeter<'a, R> {
        Greeter {
            rt,
            has_greeted: false,
            left: nodes,
            result: Ok(()),
        }
    }

    /// What ended it, if not the last greeting.
    pub fn end(self) -> Result<()> {
        self.result
    }

    /// Greets the group.
    fn greet(&mut self, node: &mut WireNode) -> Result<()> {
        let me = node.core().me().name;
        let text = format!(in self.rt.alloc(); "hello from {me}")?;
        node.broadcast(Bytes::copy_from_slice(self.rt.alloc(), text.as_bytes())?)?;
        self.has_greeted = true;
        Ok(())
    }

    /// Prints a greeting.
    fn print(&mut self, message: &Delivery) -> Result<()> {
        let (me, of) = (message.node.name, message.id.origin.name);
        let text = str::from_utf8(message.payload.as_slice())?;
        println!(self.rt; "{me} delivers of {of}: {text}")?;
        self.left = self.left.saturating_sub(1);
        Ok(())
    }

    /// Greets, and prints what was delivered.
    fn work(&mut self, node: &mut WireNode) -> Result<()> {
        let is_alone = node.core().active().is_empty();
        if !self.has_greeted && (self.left == 1 || !is_alone) {
            self.greet(node)?;
        }
        for message in &node.take_deliveries() {
            self.print(message)?;
        }
        Ok(())
    }
}

impl<'a, R: Print + AllocGlobal> Program<WireNode> for Greeter<'a, R> {
    fn turn(&mut self, _at: Situation, node: &mut WireNode) -> Next {
        self.result = self.work(node);
        if self.result.is_ok() && self.left > 0 {
            Next::Wait
        } else {
            Next::End
        }
    }
}
