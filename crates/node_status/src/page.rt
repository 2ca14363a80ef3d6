//! The page that draws a node.

/// One page of HTML, which needs nothing but `/status` beside it.
///
/// Each second it draws the node in the middle of its neighbours, with solid lines to those to whom messages are sent,
/// and dashed ones to those to whom they are announced. What it shows of the node is inserted as text.
pub const PAGE: &str = "<!doctype html>
<html lang='en'>
<meta charset='utf-8'>
<meta name='viewport' content='width=device-width, initial-scale=1'>
<title>plumtree</title>
<style>
:root { color-scheme: light dark; background: var(--paper); }
:root { --ink: #1d2733; --soft: #5b6875; --paper: #ffffff; --node: #e6eef7; --line: #2f6db3; --alarm: #b3261e; }
@media (prefers-color-scheme: dark) {
  :root { --ink: #e4e9ef; --soft: #9aa7b4; --paper: #14191f; --node: #22303f; --line: #7db4ee; --alarm: #ff8a80; }
}
body { margin: 0 auto; max-width: 72rem; padding: 1rem; font: 1rem/1.4 sans-serif; color: var(--ink); }
h1 { margin: 0; font-size: 1.5rem; }
h2 { margin: 1rem 0 .25rem; font-size: 1rem; }
#state { margin: .25rem 0 1rem; color: var(--soft); }
.lost #state { color: var(--alarm); font-weight: bold; }
.lost main { opacity: .4; }
main { display: flex; flex-wrap: wrap; align-items: flex-start; gap: 1rem 2rem; }
svg { flex: 3 1 24rem; min-width: 0; max-height: 80vh; }
section { flex: 1 1 16rem; }
section p { margin: 0; color: var(--soft); }
line { stroke: var(--line); stroke-width: 2; }
.lazy { stroke-dasharray: 7 6; }
circle { fill: var(--node); stroke: var(--line); stroke-width: 2; }
.own { fill: var(--line); }
text { fill: var(--ink); stroke: var(--paper); stroke-width: 4px; paint-order: stroke; }
text { font-size: 15px; text-anchor: middle; }
text.soft { fill: var(--soft); font-size: 12px; }
table { border-collapse: collapse; }
th { padding: 0 1rem 0 0; text-align: left; font-weight: normal; color: var(--soft); }
td { font-variant-numeric: tabular-nums; overflow-wrap: anywhere; }
ul { margin: 0; padding: 0; list-style: none; columns: 8rem; }
</style>
<body>
<h1 id='name'>plumtree</h1>
<p id='state' role='status'>The node is asked.</p>
<main>
<svg id='graph' viewBox='0 0 720 560' role='img' aria-label='The node and its neighbours'></svg>
<section>
<p>Solid: messages are sent. Dashed: messages are announced.</p>
<h2>Counts</h2>
<table><tbody id='counts'></tbody></table>
<h2>Passive view</h2>
<ul id='passive'></ul>
</section>
</main>
<script>
const find = id => document.getElementById(id);
let lastSeen = null;

function make(tag, text) {
  const element = document.createElement(tag);
  element.textContent = text;
  return element;
}

function makeSvg(tag, attributes, text = '') {
  const element = document.createElementNS('http://www.w3.org/2000/svg', tag);
  for (const [key, value] of Object.entries(attributes)) element.setAttribute(key, value);
  element.textContent = text;
  return element;
}

function drawNode(x, y, radius, kind, name, below) {
  return [
    makeSvg('circle', { cx: x, cy: y, r: radius, class: kind }),
    makeSvg('text', { x, y: y + radius + 18 }, name),
    makeSvg('text', { x, y: y + radius + 34, class: 'soft' }, below),
  ];
}

function drawGraph(status) {
  const lines = [];
  const nodes = drawNode(360, 255, 22, 'own', status.name, '');
  status.active.forEach((neighbor, place) => {
    const angle = 2 * Math.PI * place / status.active.length - Math.PI / 2;
    const x = 360 + 210 * Math.cos(angle);
    const y = 255 + 210 * Math.sin(angle);
    const kind = neighbor.is_eager ? 'eager' : 'lazy';
    const below = neighbor.waiting > 0 ? neighbor.waiting + ' bytes wait' : neighbor.at || '';
    lines.push(makeSvg('line', { x1: 360, y1: 255, x2: x, y2: y, class: kind }));
    nodes.push(...drawNode(x, y, 16, kind + '-node', neighbor.name, below));
  });
  find('graph').replaceChildren(...lines, ...nodes);
}

function listCounts(status) {
  const { name, active, passive, counts, kept, ...rest } = status;
  const all = { ...rest, ...counts, ...kept };
  find('counts').replaceChildren(...Object.entries(all).map(([key, value]) => {
    const row = document.createElement('tr');
    row.append(make('th', key.replaceAll('_', ' ')), make('td', value));
    return row;
  }));
}

async function refresh() {
  try {
    const answer = await fetch('/status', { cache: 'no-store', signal: AbortSignal.timeout(5000) });
    if (!answer.ok) throw new Error(answer.statusText);
    const status = await answer.json();
    find('name').textContent = document.title = 'plumtree: ' + status.name;
    drawGraph(status);
    listCounts(status);
    find('passive').replaceChildren(...status.passive.map(name => make('li', name)));
    lastSeen = new Date();
    find('state').textContent = 'As of ' + lastSeen.toLocaleTimeString() + ', with '
      + status.active.length + ' in its active view.';
    document.body.className = '';
  } catch (error) {
    const since = lastSeen ? ' This is how it was at ' + lastSeen.toLocaleTimeString() + '.' : '';
    find('state').textContent = 'The node cannot be reached.' + since;
    document.body.className = 'lost';
  }
  setTimeout(refresh, 1000);
}

refresh();
</script>
</html>
";
