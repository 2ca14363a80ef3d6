//! A run that is followed by its record.
use crate::error::RecordsError;
use crate::halt::{Halt, halt_of};
use crate::record_files::RecordFiles;
use crate::record_stream::RecordStream;
use crate::share::Share;
use crate::sink::DeliverySink;
use crate::source::Source;
use frames::Frame;
use node_names::{Limits, NodeName, Origin};
use protocol::Core;
use record_merge::GroupError;
use run_check::RunCheck;
use std::alloc::Global;
use std::fs::File;
use std::rt::Files;
use step_records::{Head, RecordError, RecordErrorKind};

/// How far a run is followed.
#[derive(Clone, Copy, Debug, PartialEq, Eq)]
pub(crate) enum Stage {
    /// It is not started.
    Waiting,
    /// It is started, and its record goes on.
    Going,
    /// Its record is read to the end.
    Over,
}

/// A run that is followed by its record.
#[derive(Drop)]
pub(crate) struct Run {
    pub(crate) origin: Origin,
    pub(crate) limits: Limits,
    /// The label of its cluster.
    label: NodeName,
    /// The index of the last earlier run of its name.
    pub(crate) earlier: Option<usize>,
    pub(crate) stage: Stage,
    stream: RecordStream,
    /// How many bytes at the end of its record are no whole entry. It is known once the run is over.
    left: usize,
}

impl Run {
    /// Reads the head of the record that has these files, and closes it.
    pub(crate) fn of_files<R: Files<File = File>>(
        alloc: Global,
        source: &mut Source<'_, R>,
        files: RecordFiles,
    ) -> Result<Run, RecordsError> {
        let mut stream = RecordStream::new(alloc, files);
        let head = stream.begin(source)?;
        stream.close();
        Ok(Run {
            origin: head.origin,
            limits: head.limits,
            label: head.label,
            earlier: None,
            stage: Stage::Waiting,
            stream,
            left: 0,
        })
    }

    /// Rejects a run that is not of the same cluster, or has other limits.
    pub(crate) fn judge(&self, run: &Run) -> Result<(), GroupError> {
        let first = self.origin;
        let other = run.origin;
        if run.label != self.label {
            return Err(GroupError::OtherCluster { first, other });
        }
        if run.limits != self.limits {
            return Err(GroupError::OtherLimits { first, other });
        }
        Ok(())
    }

    /// How many of its stimuli are taken.
    pub(crate) fn place(&self) -> usize {
        self.stream.place()
    }

    /// What the paths of its record's files begin with.
    pub(crate) fn path(&self) -> &str {
        self.stream.path()
    }

    /// How many bytes at the end of its record are no whole entry, once it is over.
    pub(crate) fn left(&self) -> usize {
        self.left
    }

    /// Looks up where the stimulus at this place stands: the path of its file, and how many of the file's bytes come
    /// before it. `None` if the record has no such stimulus.
    pub(crate) fn find<R: Files<File = File>>(
        &mut self,
        source: &mut Source<'_, R>,
        place: usize,
    ) -> Result<Option<(String, u64)>, RecordsError> {
        self.stream.find(source, place)
    }

    /// Whether it began with this head.
    fn is_of(&self, head: &Head) -> bool {
        head.origin == self.origin && head.label == self.label && head.limits == self.limits
    }

    /// Starts the run by its head, which is read again.
    pub(crate) fn start<R: Files<File = File>, C: Core<Global, Note = Frame>>(
        &mut self,
        source: &mut Source<'_, R>,
        check: &mut RunCheck<C>,
    ) -> Result<(), Halt> {
        let head = self.stream.begin(source)?;
        if !self.is_of(&head) {
            let kind = RecordErrorKind::OtherRecord;
            let (entry, at) = (0, 0);
            let error = RecordError { entry, at, kind };
            return Err(Halt::Failed(self.stream.file_fault(error)));
        }
        match check.start(head.origin, head.peers.as_slice(), head.contact) {
            Ok(()) => {
                self.stage = Stage::Going;
                Ok(())
            }
            Err(error) => Err(halt_of(self.origin, 0, error)),
        }
    }

    /// Ends the run: its record is read to the end.
    fn end(&mut self) {
        self.left = self.stream.left();
        self.stream.close();
        self.stage = Stage::Over;
    }

    /// Has the run take the stimulus that was read ahead, and hands out what it delivers.
    fn take<C: Core<Global, Note = Frame>, S: DeliverySink>(
        &mut self,
        check: &mut RunCheck<C>,
        sink: &mut S,
    ) -> Result<(), Halt> {
        let Some(stimulus) = self.stream.ahead() else {
            return Ok(());
        };
        match check.take(&self.origin, stimulus) {
            Ok(given) if given.is_empty() => {}
            Ok(given) => sink.deliver(given.as_slice())?,
            Err(error) => return Err(halt_of(self.origin, self.place(), error)),
        }
        self.stream.pass();
        Ok(())
    }

    /// Has the run take what its share lets it take. Returns whether it took anything or ended.
    pub(crate) fn go_on<R, C, S>(
        &mut self,
        source: &mut Source<'_, R>,
        check: &mut RunCheck<C>,
        mut share: Share,
        sink: &mut S,
    ) -> Result<bool, Halt>
    where
        R: Files<File = File>,
        C: Core<Global, Note = Frame>,
        S: DeliverySink,
    {
        let mut moved = false;
        for _ in 0..u64::MAX {
            self.stream.read_ahead(source)?;
            let Some(stimulus) = self.stream.ahead() else {
                self.end();
                return Ok(true);
            };
            if !share.lets(check, stimulus) {
                break;
            }
            self.take(check, sink)?;
            moved = true;
        }
        Ok(moved)
    }
}
