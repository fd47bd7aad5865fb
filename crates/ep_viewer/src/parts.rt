//! The fixed parts of a page, as `tools/generate` writes them from page.html.

/// What stands before the data.
pub(crate) const HEAD: &[u8] = b"<!doctype html>
<html lang=\"en\">
<head>
<meta charset=\"utf-8\">
<meta name=\"viewport\" content=\"width=device-width,initial-scale=1\">
<meta http-equiv=\"Content-Security-Policy\" content=\"default-src 'none'; script-src 'unsafe-inline'; style-src 'unsafe-inline'; img-src data:\">
<link rel=\"icon\" href=\"data:,\">
<title>EPaxos run</title>
<style>
*{box-sizing:border-box}
html,body{height:100%;margin:0}
body{display:flex;flex-direction:column;font:13px system-ui,'DejaVu Sans',sans-serif;color:#1b1f24;background:#fff}
button,input{font:inherit}
header{display:flex;flex-wrap:wrap;align-items:center;gap:6px 12px;padding:6px 10px;border-bottom:1px solid #ccd2d9;background:#f5f7f9}
h1{font-size:15px;margin:0}
#find{flex:1 1 180px;min-width:120px;max-width:380px;padding:3px 7px;border:1px solid #9aa4af;border-radius:4px}
#count,#edition{color:#4b5560}
#edition{max-width:36em;overflow:hidden;text-overflow:ellipsis;white-space:nowrap}
#edition:empty{display:none}
#key{display:flex;flex-wrap:wrap;gap:2px 12px;color:#333}
#key i{display:inline-block;width:16px;height:0;border-top:3px solid;vertical-align:middle;margin-right:4px}
#key b{display:inline-block;width:9px;height:9px;transform:rotate(45deg);margin:0 5px 0 2px}
#key u{display:inline-block;width:11px;height:11px;margin:0 5px 0 2px;vertical-align:middle;border:1px solid #222;background:#fff3bf}
#key u.closed{border:1px dashed #666;background:#ddd}
#key u.missing{border:1px dashed #777;background:#f4f4f4}
#key u.together{border:2px solid #333;background:#e9eef4}
#key s{display:inline-block;width:10px;height:10px;border:1.4px solid #222;border-radius:50%;margin:0 5px 0 2px;vertical-align:middle;background:#fff}
#key s.propose{background:#222}#key s.recover{background:#bbb}#key s.execute{border-width:3px}
header button{padding:3px 9px;border:1px solid #9aa4af;border-radius:4px;background:#fff;cursor:pointer}
header button[aria-pressed=true]{background:#d7e8fb;border-color:#0b62a8}
#views{display:flex;gap:4px}
main{flex:1;min-height:0;display:flex}
#side{width:min(500px,36vw);min-width:250px;display:flex;flex-direction:column;border-right:1px solid #ccd2d9}
#head,.row{display:grid;grid-template-columns:3.6em minmax(0,1.4fr) 3.4em 5.9em minmax(0,1fr);gap:6px;padding:0 8px;height:24px;align-items:center;white-space:nowrap}
#head{border-bottom:1px solid #ccd2d9;font-family:ui-monospace,'DejaVu Sans Mono',monospace;font-size:12px}
#head button{all:unset;cursor:pointer;font:600 12px system-ui,'DejaVu Sans',sans-serif;overflow:hidden;text-overflow:ellipsis}
#head button:hover,#head button:focus-visible{text-decoration:underline}
#head button[aria-sort=ascending]::after{content:' \\25b4'}
#head button[aria-sort=descending]::after{content:' \\25be'}
.row>span{overflow:hidden;text-overflow:ellipsis}
#list{flex:1;overflow:auto;position:relative;outline-offset:-2px}
.row{position:absolute;left:0;right:0;cursor:pointer;font-family:ui-monospace,'DejaVu Sans Mono',monospace;font-size:12px}
.row:hover{background:#eef3f8}
.row.on{background:#d7e8fb}
.seal{background:#fff3bf}.closed{color:#666;font-style:italic}
.fast{color:#0a7a4b}.slow{color:#a04a00}.recovered{color:#7a2ea0}.open{color:#777}
#right{flex:1;min-width:0;display:flex;flex-direction:column}
#stage{flex:1;min-height:0;position:relative}
canvas{position:absolute;inset:0;width:100%;height:100%;touch-action:none;cursor:grab;outline-offset:-2px}
canvas.held{cursor:grabbing}
#zoom{position:absolute;right:10px;bottom:10px;display:flex;flex-direction:column;gap:4px}
#zoom button{width:30px;height:30px;border:1px solid #9aa4af;border-radius:4px;background:#fffd;cursor:pointer}
#words{max-height:26%;overflow:auto;border-top:1px solid #ccd2d9;padding:6px 10px;font:12px ui-monospace,'DejaVu Sans Mono',monospace;white-space:pre-wrap;overflow-wrap:anywhere;min-height:44px}
@media (max-width:720px){main{flex-direction:column-reverse}#side{width:100%;height:34%;border-right:0;border-top:1px solid #ccd2d9}}
</style>
</head>
<body>
<header>
<h1>EPaxos run</h1>
<span id=\"views\" role=\"group\" aria-label=\"what is drawn\"><button type=\"button\" data-mode=\"diagram\" aria-pressed=\"true\">Diagram</button><button type=\"button\" data-mode=\"graph\" aria-pressed=\"false\">Graph</button></span>
<input id=\"find\" type=\"search\" placeholder=\"words: put x, never handled, slow, recovered\" aria-label=\"words of events, and of instances: command, path, reply\">
<button id=\"all\" type=\"button\">All events</button>
<button id=\"save\" type=\"button\">Save as SVG</button>
<span id=\"count\" role=\"status\"></span>
<span id=\"edition\"></span>
<span id=\"key\"></span>
</header>
<main>
<section id=\"side\" aria-label=\"instances\">
<div id=\"head\"><button type=\"button\" data-by=\"name\" title=\"instance: sort\">inst.</button><button type=\"button\" data-by=\"command\" title=\"sort\">command</button><button type=\"button\" data-by=\"client\" title=\"client and request: sort\">client</button><button type=\"button\" data-by=\"path\" title=\"sort\">path</button><button type=\"button\" data-by=\"reply\" title=\"sort\">reply</button></div>
<div id=\"list\" tabindex=\"0\"></div>
</section>
<section id=\"right\">
<div id=\"stage\"><canvas id=\"diagram\" tabindex=\"0\" aria-label=\"space-time diagram: a line a replica, a dot an event, an arrow a frame; or the graph of dependencies\"></canvas>
<div id=\"zoom\"><button type=\"button\" data-by=\"1.3\" aria-label=\"nearer\">+</button><button type=\"button\" data-by=\"0.77\" aria-label=\"farther\">&minus;</button><button type=\"button\" data-by=\"0\" aria-label=\"whole run\">&#8597;</button><button type=\"button\" data-by=\"1\" aria-label=\"as at first\">1</button></div></div>
<div id=\"words\">Click a dot or a row for its words, an instance for its events. Drag to move; turn the wheel to move, with Ctrl to zoom.</div>
</section>
</main>
<script id=\"shown\" type=\"application/json\">";

/// What stands behind the data: the page's script.
pub(crate) const TAIL: &[u8] = b"</script>
<script>
'use strict';
// What the page has is what `epaxos show` writes: in version 3 the line of the edition, and then a line an entry. All else is read off its words.
const told = JSON.parse(document.getElementById('shown').textContent).split('\\n').filter(line => line);
const lines = told.filter(line => line.startsWith('stamp ')), edition = told.find(line => line.startsWith('version ')) || '';
const colors = {PreAccept: '#0b62a8', PreAcceptOK: '#0b62a8', Accept: '#a04a00', AcceptOK: '#a04a00', Commit: '#0a7a4b', Prepare: '#7a2ea0', PrepareOK: '#7a2ea0', Nack: '#444'};
const letters = {PreAccept: 'PA', PreAcceptOK: 'PAok', Accept: 'A', AcceptOK: 'Aok', Commit: 'C', Prepare: 'P', PrepareOK: 'Pok', Nack: 'N'};
const pathColors = {fast: '#0a7a4b', slow: '#a04a00', recovered: '#7a2ea0', open: '#777'};
const answers = new Set(['PreAcceptOK', 'AcceptOK', 'PrepareOK', 'Nack']);

// The words of a line are parted by single spaces; a key and a value are one word each, so each place in a line has one meaning.
class Reader {
  constructor(text) { this.words = text.split(' '); this.at = 0; }
  next() { return this.words[this.at++]; }
  bare() { return this.next().replace(/[;:,)]+$/, ''); }
  isNext(word) { return this.words[this.at] === word; }
  ballot() { return [parseInt(this.next().slice(1)), parseInt(this.next())]; }
  command() {
    const op = this.next();
    let count = {noop: 0, put: 2, swap: 2, cas: 3, ask: 2, act: 2}[op] ?? 1;
    // (an ask or act has one key or two, and then its body. Behind a command stands seq or (client, and a number behind that, so one of the two
    // stands here exactly where there are two keys)
    if ((op === 'ask' || op === 'act') && ['seq', '(client'].includes(this.words[this.at + 3])) count = 3;
    const words = [];
    for (let k = 0; k < count; k++) words.push(this.next());
    return {op, text: [op, ...words].join(' ')};
  }
  attributes() { this.next(); const seq = +this.next(); this.next(); return {seq, deps: this.bare()}; }
  message() {
    const start = this.at, kind = this.next();
    const message = {kind, instance: this.bare(), command: null, ballot: null};
    if (kind !== 'Commit') { this.next(); message.ballot = this.ballot(); }
    if (kind === 'PreAccept' || kind === 'Accept' || kind === 'Commit') { message.command = this.command(); message.attributes = this.attributes(); }
    else if (kind === 'PreAcceptOK') this.attributes();
    else if (kind === 'Nack') { this.next(); this.ballot(); }
    else if (kind === 'PrepareOK') {
      if (this.next() === 'without') { this.next(); this.next(); }
      else { this.next(); this.next(); this.ballot(); message.command = this.command(); this.attributes(); }
    }
    message.text = this.words.slice(start, this.at).join(' ').replace(/;$/, '');
    return message;
  }
}

function entryOf(line, index) {
  const parts = /^stamp (\\d+)  replica (\\d) entry (\\d+)  (.*)$/.exec(line);
  const entry = {index, line, stamp: +parts[1], replica: +parts[2], number: +parts[3], sent: [], done: [], about: new Set(), took: null, from: null, message: null, commits: null};
  const reader = new Reader(parts[4]);
  entry.kind = reader.next();
  if (entry.kind === 'propose') {
    entry.command = reader.command();
    reader.next(); entry.client = parseInt(reader.next());
    reader.next(); entry.request = parseInt(reader.next());
    reader.next(); reader.next();
    if (reader.isNext('sparing')) { reader.next(); reader.next(); }
  } else if (entry.kind === 'handle') {
    entry.from = reader.next().split(':').map(Number);
    entry.message = reader.message();
    entry.about.add(entry.message.instance);
  } else {
    if (entry.kind === 'give') { entry.kind = 'give up'; reader.next(); }
    entry.about.add(entry.asked = reader.bare());
  }
  if (reader.isNext('took')) { reader.next(); entry.took = reader.bare(); entry.about.add(entry.took); }
  while (reader.isNext('sends')) {
    reader.next();
    const receivers = [];
    for (;;) {
      reader.next();
      let word = reader.next(), lost = false;
      const to = parseInt(word);
      if (reader.isNext('NEVER')) { reader.next(); word = reader.next(); lost = true; }
      receivers.push({to, lost});
      if (word.endsWith(':')) break;
    }
    const message = reader.message();
    entry.about.add(message.instance);
    for (const it of receivers) entry.sent.push({...it, message});
  }
  if (reader.isNext('executed')) {
    reader.next();
    while (reader.at < reader.words.length) {
      const instance = reader.next();
      reader.next();
      let answer = reader.next();
      if (answer === 'present') answer += ' ' + reader.next();
      if (reader.at < reader.words.length) answer = answer.slice(0, -1);
      entry.done.push({instance, answer});
      entry.about.add(instance);
    }
  }
  entry.words = parts[4].split('; sends ')[0].split('; executed ')[0];
  if (entry.done.length) entry.words += '  => ' + entry.done.map(it => `${it.instance} ${it.answer}`).join(', ');
  return entry;
}

const entries = lines.map(entryOf);
const replicas = entries.reduce((most, it) => Math.max(most, it.replica, ...it.sent.map(s => s.to)), 2) + 1;
const count = replicas <= 3 ? 3 : replicas <= 5 ? 5 : 7;
const placeOf = new Map(entries.map(it => [`${it.replica}:${it.number}`, it.index]));

// An arrow leads from the entry that sent a frame to each entry that handles it, a stub with a cross from one whose frame nobody handles.
const arrows = [];
for (const it of entries) {
  if (it.from) {
    const from = placeOf.get(`${it.from[0]}:${it.from[1]}`);
    if (from !== undefined) arrows.push({from, to: it.index, kind: it.message.kind, instance: it.message.instance});
  }
  // a message to several replicas on one side has one label there, and another message one below it
  const named = {'-1': [], '1': []};
  for (const sent of it.sent) if (sent.lost) {
    const {kind, instance} = sent.message, words = `${kind} ${instance}`, side = named[Math.sign(sent.to - it.replica)];
    const isNew = !side.includes(words);
    if (isNew) side.push(words);
    arrows.push({from: it.index, to: -1, column: sent.to, kind, instance, label: isNew ? side.length : 0});
  }
}

// An instance is committed by the first entry that sends a Commit of it: fast if that replica sent no Accept of it, recovered if it sent a Prepare.
const instances = new Map();
function instanceOf(name) {
  let it = instances.get(name);
  if (!it) instances.set(name, it = {name, command: '', client: '', path: 'open', reply: '', seq: 0, deps: '-', prepares: new Set(), accepts: new Set(), events: 0, place: 0});
  return it;
}
const commit = (one, message) => Object.assign(one, {command: message.command.text, ...message.attributes});
for (const it of entries) {
  for (const name of it.about) instanceOf(name).events++;
  if (it.took) Object.assign(instanceOf(it.took), {command: it.command.text, client: `${it.client}/${it.request}`});
  for (const sent of it.sent) {
    const one = instanceOf(sent.message.instance);
    if (sent.message.kind === 'Prepare') one.prepares.add(it.replica);
    if (sent.message.kind === 'Accept') one.accepts.add(it.replica);
    if (sent.message.kind === 'Commit') {
      it.commits = one.name;
      if (one.path === 'open') {
        one.path = one.prepares.has(it.replica) ? 'recovered' : one.accepts.has(it.replica) ? 'slow' : 'fast';
        commit(one, sent.message);
      }
    }
  }
  if (it.message && it.message.kind === 'Commit') it.commits = it.message.instance;
  for (const done of it.done) {
    const one = instanceOf(done.instance);
    if (!one.reply || done.instance.startsWith(it.replica + '.')) one.reply = done.answer;
  }
}
for (const it of entries) if (it.message && it.message.kind === 'Commit') {
  const one = instanceOf(it.message.instance);
  if (one.path === 'open') { one.path = 'fast'; commit(one, it.message); }
}
// An entry is about a seal if it proposes, commits or executes one; it closes if it answers `closed`.
const isSeal = name => instances.get(name).command.startsWith('seal ');
for (const it of entries) {
  it.seals = [it.took, it.commits, ...it.done.map(one => one.instance)].some(name => name && isSeal(name));
  it.closes = it.done.some(one => one.answer === 'closed');
}
const ordered = [...instances.values()].sort((a, b) => {
  const [r, n] = a.name.split('.').map(Number), [q, m] = b.name.split('.').map(Number);
  return r - q || n - m;
});

// What is shown: the rows that the instance and the words keep, as a diagram or as a graph of the instances that are listed.
let rows = entries, sealed = [], listed = ordered, placeIn = new Int32Array(entries.length), chosen = null, selected = -1, wanted = null, mode = 'diagram', order = {by: 'name', way: 1};
const list = document.getElementById('list'), find = document.getElementById('find'), words = document.getElementById('words');
const canvas = document.getElementById('diagram'), stage = document.getElementById('stage'), draw2d = canvas.getContext('2d');
const view = {zoom: 1, x: 0, y: 0, width: 0, height: 0, ratio: 1};
const TOP = 30, LEFT = 96, ROW = 30;
let columnWidth = 170;

// Words are found, whatever their case, in an event's line and in the command, the path and the reply of an instance.
function keep() {
  let found = null;
  if (wanted) found = new Set(ordered.filter(it => wanted.test(it.command) || wanted.test(it.path) || wanted.test(it.reply)).map(it => it.name));
  const about = new Set(found || []), isOf = it => { for (const name of it.about) if (found.has(name)) return true; return false; };
  rows = entries.filter(it => {
    if (chosen && !it.about.has(chosen)) return false;
    if (!wanted) return true;
    if (!wanted.test(it.line)) return isOf(it);
    for (const name of it.about) about.add(name);
    return true;
  });
  placeIn.fill(-1);
  rows.forEach((it, k) => { placeIn[it.index] = k; });
  sealed = [...rows.keys()].filter(k => rows[k].seals);
  indexArrows();
  if (selected >= 0 && placeIn[selected] < 0) selected = -1;
  document.getElementById('count').textContent = `${rows.length} of ${entries.length} events, ${instances.size} instances, ${count} replicas`;
  // the list has the instances that have these words, or that events with these words are about
  listed = wanted ? ordered.filter(it => about.has(it.name)) : ordered;
  drawnGraph = null;
  if (mode === 'diagram') view.y = 0;
  sortList(); clamp(); paint();
}

// The list is sorted by a column; equal ones stay in the order of instances.
const pathOrder = ['recovered', 'slow', 'fast', 'open'], compare = new Intl.Collator('en', {numeric: true}).compare;
function sortList() {
  const {by, way} = order;
  if (by !== 'name' || way < 0) listed = [...listed].sort((a, b) => way * (by === 'path' ? pathOrder.indexOf(a.path) - pathOrder.indexOf(b.path) : compare(a[by], b[by])));
  listRows();
}

// Arrows by blocks of rows: those that touch block b are numbers[starts[b]] to numbers[starts[b + 1] - 1], and lows has the first block of each.
const BLOCK = 64, MOST = 4000;
const lows = new Int32Array(arrows.length), highs = new Int32Array(arrows.length);
let starts = new Int32Array(2), numbers = new Int32Array(0);
function indexArrows() {
  const many = Math.floor(rows.length / BLOCK) + 1;
  starts = new Int32Array(many + 1);
  arrows.forEach((it, n) => {
    const from = placeIn[it.from], to = it.to < 0 ? from : placeIn[it.to];
    lows[n] = from < 0 || to < 0 ? -1 : Math.floor(Math.min(from, to) / BLOCK);
    highs[n] = Math.floor(Math.max(from, to) / BLOCK);
    if (lows[n] >= 0) for (let b = lows[n]; b <= highs[n]; b++) starts[b + 1]++;
  });
  for (let b = 0; b < many; b++) starts[b + 1] += starts[b];
  numbers = new Int32Array(starts[many]);
  const next = starts.slice();
  for (let n = 0; n < arrows.length; n++) if (lows[n] >= 0) for (let b = lows[n]; b <= highs[n]; b++) numbers[next[b]++] = n;
}
// The arrows of these rows, or where they are too many to tell apart, every n-th of them.
function arrowsOf(first, last, isWhole, visit) {
  const low = Math.floor(first / BLOCK), high = Math.floor(last / BLOCK);
  const each = isWhole ? 1 : Math.max(1, Math.ceil((starts[high + 1] - starts[low]) / MOST));
  for (let b = low; b <= high; b++) for (let k = starts[b]; k < starts[b + 1]; k++) {
    const n = numbers[k];
    if (n % each === 0 && (b === low || lows[n] === b)) visit(arrows[n]);
  }
}

// (the replicas' lines stay apart, however many events are in sight)
const across = zoom => columnWidth * Math.max(zoom, 0.4);
const X = (replica, at = view) => LEFT + (replica + 0.5) * across(at.zoom) + at.x;
const Y = (place, at = view) => TOP + (place + 0.7) * ROW * at.zoom + at.y;

function clamp() {
  if (mode === 'graph') {
    const {wide, high} = graph(), {zoom, width, height} = view;
    view.x = Math.max(Math.min(0, width - 40 - wide * zoom), Math.min(view.x, Math.max(0, width - wide * zoom)));
    view.y = Math.max(Math.min(0, height - 40 - high * zoom), Math.min(view.y, Math.max(0, height - high * zoom)));
    return;
  }
  const high = (rows.length + 1) * ROW * view.zoom, wide = LEFT + count * across(view.zoom);
  view.y = Math.min(0, Math.max(view.y, Math.min(0, view.height - TOP - high)));
  view.x = Math.min(0, Math.max(view.x, -wide));
}

// The mark of a seal, or of what was answered `closed`
function square(c, x, y, reach, inside, edge, dashes) {
  c.fillStyle = inside; c.fillRect(x - reach, y - reach, 2 * reach, 2 * reach);
  c.strokeStyle = edge; c.lineWidth = 1; c.setLineDash(dashes); c.strokeRect(x - reach, y - reach, 2 * reach, 2 * reach);
  c.setLineDash([]);
}

let asked = false;
function paint() {
  if (asked) return;
  asked = true;
  requestAnimationFrame(() => { asked = false; draw(); });
}

function draw() {
  draw2d.setTransform(view.ratio, 0, 0, view.ratio, 0, 0);
  drawOn(draw2d, view);
}
const drawOn = (c, at) => {
  c.fillStyle = '#fff';
  c.fillRect(0, 0, at.width, at.height);
  if (mode === 'graph') drawGraph(c, at); else drawDiagram(c, at);
};
const pathOn = c => c instanceof SvgPen ? new SvgPath() : new Path2D();

function drawDiagram(c, at) {
  const {zoom, width, height} = at;
  const step = ROW * zoom, first = Math.max(0, Math.floor((-at.y - step) / step)), last = Math.min(rows.length - 1, Math.ceil((height - TOP - at.y) / step));
  const dot = Math.max(1.2, Math.min(6, 6 * zoom)), near = zoom >= 0.55;
  // lines of replicas
  c.strokeStyle = '#8a949e'; c.lineWidth = 1; c.beginPath();
  for (let r = 0; r < count; r++) { c.moveTo(X(r, at), TOP); c.lineTo(X(r, at), Math.min(height, Y(rows.length, at))); }
  c.stroke();
  if (selected >= 0) { c.fillStyle = '#fff3c4'; c.fillRect(0, Y(placeIn[selected], at) - step / 2, width, step); }
  // arrows, one path a colour
  const paths = {}, labels = [];
  arrowsOf(first, last, at.isWhole, it => {
    const from = placeIn[it.from], to = it.to < 0 ? from : placeIn[it.to];
    const dashed = answers.has(it.kind) ? 1 : 0, name = it.kind === 'Commit' ? 'Commit' : it.kind;
    const path = paths[name] || (paths[name] = {path: pathOn(c), heads: pathOn(c), dashed});
    const x = X(entries[it.from].replica, at), y = Y(from, at);
    if (it.to < 0) {
      const apart = it.column - entries[it.from].replica, way = Math.sign(apart), far = Math.abs(apart);
      // (to a replica farther away a stub falls less, so that no two lie on each other)
      const end = x + way * Math.min(60, columnWidth * 0.4) * zoom, low = y + (far > 1 ? -4 * far : 11) * zoom, s = 4 * Math.max(zoom, 0.4);
      path.path.moveTo(x, y); path.path.lineTo(end, low);
      path.heads.moveTo(end - s, low - s); path.heads.lineTo(end + s, low + s); path.heads.moveTo(end - s, low + s); path.heads.lineTo(end + s, low - s);
      if (zoom >= 0.8 && it.label) labels.push([it, end + way * 8 * zoom, y + (2 + 14 * (it.label - 1)) * zoom, way]);
      return;
    }
    const a = X(entries[it.to].replica, at), b = Y(to, at), long = Math.hypot(a - x, b - y) || 1, ux = (a - x) / long, uy = (b - y) / long;
    const ex = a - ux * (dot + 1), ey = b - uy * (dot + 1), s = 8 * Math.max(zoom, 0.3);
    path.path.moveTo(x, y); path.path.lineTo(ex, ey);
    if (zoom > 0.2) {
      path.heads.moveTo(ex - s * ux + s * 0.45 * uy, ey - s * uy - s * 0.45 * ux); path.heads.lineTo(ex, ey); path.heads.lineTo(ex - s * ux - s * 0.45 * uy, ey - s * uy + s * 0.45 * ux);
    }
    if (zoom >= 0.8) { const back = Math.min(long * 0.5, 52 * zoom); labels.push([it, ex - ux * back, ey - uy * back, 0]); }
  });
  c.globalAlpha = zoom < 0.1 ? 0.25 : 1;
  for (const kind in paths) {
    const {path, heads, dashed} = paths[kind];
    c.strokeStyle = colors[kind]; c.lineWidth = Math.max(0.5, (kind === 'Commit' ? 2.4 : 1.5) * Math.min(1, zoom));
    c.setLineDash(dashed && zoom > 0.3 ? [7, 4] : []); c.stroke(path);
    c.setLineDash([]); c.stroke(heads);
  }
  c.globalAlpha = 1;
  // names of frames
  c.font = `${11 * Math.min(1.2, Math.max(0.8, zoom))}px ui-monospace,'DejaVu Sans Mono',monospace`;
  c.textAlign = 'center'; c.textBaseline = 'middle';
  for (const [it, place, y, way] of labels) {
    const text = `${letters[it.kind]} ${it.instance}`;
    const wide = text.length * 6.7 * Math.min(1.2, Math.max(0.8, zoom)), x = place + way * wide / 2;
    c.fillStyle = '#ffffffe0'; c.fillRect(x - wide / 2, y - 7, wide, 14);
    c.fillStyle = colors[it.kind]; c.fillText(text, x, y);
  }
  // dots, stamps and words
  const right = X(count - 1, at) + across(zoom) * 0.5 + 10;
  const mark = k => {
    const it = rows[k], x = X(it.replica, at), y = Y(k, at);
    if (it.seals) square(c, x, y, dot + 8 * Math.min(1, 2 * zoom), '#fff3bf', '#222', []);
    if (it.closes) square(c, x, y, dot + 5 * Math.min(1, 2 * zoom), '#ddd', '#666', [3, 2]);
    if (it.commits) {
      const s = dot + 3.5 * Math.min(1, 2 * zoom);
      c.fillStyle = pathColors[instances.get(it.commits).path];
      c.beginPath(); c.moveTo(x, y - s - 1); c.lineTo(x + s + 1, y); c.lineTo(x, y + s + 1); c.lineTo(x - s - 1, y); c.fill();
    }
    if (zoom < 0.1) return;
    c.beginPath(); c.arc(x, y, dot, 0, 7);
    c.fillStyle = it.kind === 'propose' ? '#222' : it.kind === 'give up' || it.kind === 'recover' ? '#bbb' : '#fff';
    c.fill(); c.strokeStyle = '#222'; c.lineWidth = (it.kind === 'execute' || it.done.length ? 3 : 1.4) * Math.min(1, zoom + 0.2); c.stroke();
  };
  // (where several rows share a pixel, one of them stands for all, but for seals)
  const each = Math.max(1, Math.floor(0.7 / step));
  for (let k = Math.ceil(first / each) * each; k <= last; k += each) mark(k);
  if (each > 1) for (const k of sealed) if (k >= first && k <= last) mark(k);
  if (near) {
    c.font = `${12 * Math.min(1.2, Math.max(0.75, zoom))}px ui-monospace,'DejaVu Sans Mono',monospace`;
    for (let k = first; k <= last; k++) {
      const it = rows[k], y = Y(k, at);
      c.textAlign = 'left'; c.fillStyle = '#222';
      if (right < width) c.fillText(it.words.length > 160 ? it.words.slice(0, 160) + '..' : it.words, right, y);
      c.fillStyle = '#fffe'; c.fillRect(0, y - 8, LEFT - 20, 16);
      c.textAlign = 'right'; c.fillStyle = '#666'; c.fillText(it.stamp, LEFT - 24, y);
    }
  }
  // names of replicas
  c.fillStyle = '#f5f7f9'; c.fillRect(0, 0, width, TOP - 4);
  c.fillStyle = '#222'; c.textAlign = 'center'; c.font = \"bold 13px system-ui,'DejaVu Sans',sans-serif\";
  for (let r = 0; r < count; r++) c.fillText(across(zoom) > 70 ? `replica ${r}` : r, X(r, at), TOP / 2);
  c.textAlign = 'left'; c.fillText('stamp', 8, TOP / 2);
}

// The graph: a box a component of instances that depend on each other, above what depends on it, in a column for each connected part. A dependency that
// others imply is left out: where one of them, of a seq between, depends on it too.
const BOX = 200, LINE = 17, GAP = 26;
let drawnGraph = null;
const graph = () => drawnGraph || (drawnGraph = graphOf(listed));
function graphOf(kept) {
  const nodes = [], byName = new Map();
  const nodeOf = name => {
    let it = byName.get(name);
    if (!it) {
      byName.set(name, it = {name, it: instances.get(name), edges: [], deps: new Set(), isKept: false, place: nodes.length});
      nodes.push(it);
    }
    return it;
  };
  for (const it of kept) if (it.path !== 'open') nodeOf(it.name).isKept = true;
  for (const one of [...nodes]) if (one.it.deps !== '-') for (const name of one.it.deps.split(',')) one.deps.add(nodeOf(name));
  for (const one of nodes) {
    const near = [...one.deps].filter(it => it.isKept).sort((a, b) => b.it.seq - a.it.seq);
    one.edges = [...one.deps].filter(it => !it.it || it.it.path === 'open' || !near.some(by => by.it.seq < one.it.seq && by.it.seq > it.it.seq && by.deps.has(it)));
  }
  const boxes = components(nodes);
  // layers, and the connected part of each box
  const root = box => { while (box.part !== box) box = box.part = box.part.part; return box; };
  for (const box of boxes) box.part = box;
  for (const box of boxes) {
    for (const one of box.members) for (const to of one.edges) if (to.box !== box) box.to.add(to.box);
    for (const to of box.to) { box.layer = Math.max(box.layer, to.layer + 1); root(box).part = root(to); }
    box.members.sort((a, b) => (a.it ? a.it.seq : 0) - (b.it ? b.it.seq : 0) || compare(a.name, b.name));
    box.high = box.members.length * LINE + 7;
  }
  const parts = new Map();
  for (const box of boxes) { const at = root(box); parts.has(at) ? parts.get(at).push(box) : parts.set(at, [box]); }
  return packed([...parts.values()].map(placed), boxes, nodes);
}
// Tarjan's algorithm, with a stack of its own: what a component depends on stands before it.
function components(nodes) {
  const boxes = [], stack = [];
  let count = 0;
  for (const root of nodes) {
    if (root.number !== undefined) continue;
    const work = [[root, 0]];
    root.number = root.low = count++; stack.push(root); root.open = true;
    while (work.length) {
      const top = work[work.length - 1], one = top[0];
      if (top[1] < one.edges.length) {
        const to = one.edges[top[1]++];
        if (to.number === undefined) { to.number = to.low = count++; stack.push(to); to.open = true; work.push([to, 0]); }
        else if (to.open) one.low = Math.min(one.low, to.number);
        continue;
      }
      work.pop();
      if (work.length) { const up = work[work.length - 1][0]; up.low = Math.min(up.low, one.low); }
      if (one.low < one.number) continue;
      const box = {members: [], to: new Set(), layer: 0, part: null, x: 0, y: 0, high: 0};
      for (let it = null; it !== one;) { it = stack.pop(); it.open = false; it.box = box; box.members.push(it); }
      boxes.push(box);
    }
  }
  return boxes;
}
// Places a connected part: a box goes below the nearest one that it depends on, where that has none below it yet, and else into the first free column.
function placed(boxes) {
  boxes.sort((a, b) => a.layer - b.layer || compare(a.members[0].name, b.members[0].name));
  const highs = [], tops = [0], lasts = [];
  for (const box of boxes) highs[box.layer] = Math.max(highs[box.layer] || 0, box.high);
  for (let k = 0; k < highs.length; k++) tops[k + 1] = tops[k] + highs[k] + GAP;
  for (const box of boxes) {
    const near = [...box.to].sort((a, b) => b.layer - a.layer);
    let column = (near.find(it => lasts[it.column] < box.layer) || {column: -1}).column;
    if (column < 0) { column = lasts.findIndex(it => it < box.layer - 1); if (column < 0) column = lasts.length; }
    lasts[column] = box.layer;
    Object.assign(box, {column, x: column * (BOX + GAP), y: tops[box.layer]});
  }
  return {boxes, wide: lasts.length * (BOX + GAP), high: tops[highs.length]};
}
// Places the parts beside and below each other.
function packed(parts, boxes, nodes) {
  parts.sort((a, b) => b.high - a.high);
  const area = parts.reduce((sum, it) => sum + it.wide * it.high, 0), most = Math.max(1200, Math.sqrt(area * 1.6));
  let x = 20, y = 20, high = 0, wide = 0;
  for (const part of parts) {
    if (x > 20 && x + part.wide > most) { x = 20; y += high + GAP; high = 0; }
    for (const box of part.boxes) { box.x += x; box.y += y; }
    x += part.wide + GAP; high = Math.max(high, part.high); wide = Math.max(wide, x);
  }
  return {nodes, boxes, byName: new Map(nodes.map(it => [it.name, it])), wide, high: y + high};
}
const isIn = (box, at) => (box.x + BOX) * at.zoom + at.x > 0 && box.x * at.zoom + at.x < at.width && (box.y + box.high) * at.zoom + at.y > 0 && box.y * at.zoom + at.y < at.height;

function drawGraph(c, at) {
  const {zoom} = at, {boxes} = graph(), near = zoom >= 0.45, own = pathOn(c), heads = pathOn(c), ways = [];
  const x = it => it * zoom + at.x, y = it => it * zoom + at.y, seen = boxes.filter(it => isIn(it, at));
  for (const from of boxes) for (const to of from.to) {
    if (y(from.y) < 0 || y(to.y + to.high) > at.height || Math.max(x(from.x), x(to.x)) + BOX * zoom < 0 || Math.min(x(from.x), x(to.x)) > at.width) continue;
    ways.push([from, to]);
  }
  const each = at.isWhole ? 1 : Math.max(1, Math.ceil(ways.length / MOST));
  for (let k = 0; k < ways.length; k += each) {
    const [from, to] = ways[k], a = x(from.x + BOX / 2), b = y(from.y), d = x(to.x + BOX / 2), e = y(to.y + to.high) + 1, s = 6 * Math.max(zoom, 0.3);
    own.moveTo(a, b);
    // (a way past other boxes of its column goes beside them)
    const aside = from.layer > to.layer + 1 && from.column === to.column ? BOX * 0.62 * zoom : 0, bend = Math.max(GAP * zoom, (b - e) * 0.4);
    if (from.layer === to.layer + 1 || near) own.bezierCurveTo(a + aside, b - bend, d + aside, e + bend, d, e); else own.lineTo(d, e);
    if (near) { heads.moveTo(d - s * 0.5, e + s); heads.lineTo(d, e); heads.lineTo(d + s * 0.5, e + s); }
  }
  c.globalAlpha = near ? 1 : 0.4;
  c.strokeStyle = '#5b6670'; c.lineWidth = Math.max(0.5, 1.3 * Math.min(1, zoom)); c.setLineDash([]); c.stroke(own); c.stroke(heads);
  c.globalAlpha = 1;
  c.font = `${11 * zoom}px ui-monospace,'DejaVu Sans Mono',monospace`; c.textAlign = 'left'; c.textBaseline = 'middle';
  for (const box of seen) {
    const [one] = box.members, isKnown = one.isKept, several = box.members.length > 1, wide = BOX * zoom, high = box.high * zoom;
    if (!near && high < 5) { c.fillStyle = several ? '#333' : isKnown ? pathColors[one.it.path] : '#bbb'; c.fillRect(x(box.x), y(box.y), wide, high); continue; }
    c.fillStyle = several ? '#e9eef4' : isKnown ? '#fff' : '#f4f4f4'; c.fillRect(x(box.x), y(box.y), wide, high);
    box.members.forEach((it, line) => {
      if (it.name === chosen || it.it && it.isKept && isSeal(it.name)) { c.fillStyle = it.name === chosen ? '#d7e8fb' : '#fff3bf'; c.fillRect(x(box.x) + 1, y(box.y + 3 + line * LINE), wide - 2, LINE * zoom); }
    });
    c.strokeStyle = several ? '#333' : isKnown ? pathColors[one.it.path] : '#777'; c.lineWidth = Math.max(0.5, (several ? 2 : 1.4) * Math.min(1, zoom));
    c.setLineDash(isKnown || several ? [] : [4 * zoom, 3 * zoom]); c.strokeRect(x(box.x), y(box.y), wide, high); c.setLineDash([]);
    if (near) box.members.forEach((it, line) => {
      const {command, reply} = it.it || {command: '', reply: ''}, text = `${it.name} ${command}${reply ? ' -> ' + reply : ''}`;
      c.fillStyle = reply === 'closed' ? '#666' : '#222';
      c.fillText(text.length > 29 ? text.slice(0, 27) + '..' : text, x(box.x + 5), y(box.y + 3.5 + (line + 0.5) * LINE));
    });
  }
}

// A picture of all that is kept, as it is drawn, at its own size: a pen with what the drawing calls of a canvas.
const shortly = n => Math.round(n * 10) / 10;
class SvgPath {
  constructor() { this.way = ''; }
  moveTo(x, y) { this.way += `M${shortly(x)} ${shortly(y)}`; }
  lineTo(x, y) { this.way += `L${shortly(x)} ${shortly(y)}`; }
  bezierCurveTo(a, b, d, e, x, y) { this.way += `C${[a, b, d, e, x, y].map(shortly).join(' ')}`; }
  arc(x, y, r) { r = shortly(r); this.way += `M${shortly(x - r)} ${shortly(y)}a${r} ${r} 0 1 0 ${2 * r} 0a${r} ${r} 0 1 0 ${-2 * r} 0`; }
}
class SvgPen {
  constructor(width, height) {
    Object.assign(this, {globalAlpha: 1, dashes: '', own: new SvgPath()});
    this.parts = [`<svg xmlns='http://www.w3.org/2000/svg' width='${width}' height='${height}' viewBox='0 0 ${width} ${height}'><title>EPaxos run</title>\\n`];
  }
  // (a colour may have a digit or two for how dense it is, which not every reader of SVG knows)
  inked(name, colour) {
    const short = colour.length < 6, at = short ? 4 : 7, dense = colour.length > at ? parseInt(colour.slice(at), 16) / (short ? 15 : 255) : 1;
    return ` ${name}='${colour.slice(0, at)}'${dense * this.globalAlpha < 1 ? ` ${name}-opacity='${shortly(dense * this.globalAlpha)}'` : ''}`;
  }
  edge() { return `${this.inked('stroke', this.strokeStyle)} stroke-width='${this.lineWidth}'${this.dashes}`; }
  setLineDash(dashes) { this.dashes = dashes.length ? ` stroke-dasharray='${dashes.join(' ')}'` : ''; }
  rect(x, y, w, h, look) { this.parts.push(`<rect x='${shortly(x)}' y='${shortly(y)}' width='${shortly(w)}' height='${shortly(h)}'${look}/>\\n`); }
  fillRect(x, y, w, h) { this.rect(x, y, w, h, this.inked('fill', this.fillStyle)); }
  strokeRect(x, y, w, h) { this.rect(x, y, w, h, ` fill='none'${this.edge()}`); }
  beginPath() { this.own = new SvgPath(); }
  moveTo(x, y) { this.own.moveTo(x, y); }
  lineTo(x, y) { this.own.lineTo(x, y); }
  arc(x, y, r) { this.own.arc(x, y, r); }
  fill() { this.parts.push(`<path d='${this.own.way}'${this.inked('fill', this.fillStyle)}/>\\n`); }
  stroke(path = this.own) { if (path.way) this.parts.push(`<path d='${path.way}' fill='none'${this.edge()}/>\\n`); }
  fillText(text, x, y) {
    const anchor = {left: 'start', center: 'middle', right: 'end'}[this.textAlign], safe = `${text}`.replace(/[&<>]/g, it => `&#${it.charCodeAt(0)};`);
    this.parts.push(`<text x='${shortly(x)}' y='${shortly(y)}' style=\"font:${this.font}\" text-anchor='${anchor}' dominant-baseline='central' xml:space='preserve'${this.inked('fill', this.fillStyle)}>${safe}</text>\\n`);
  }
}
function picture() {
  const long = Math.min(162, rows.reduce((most, it) => Math.max(most, it.words.length), 0));
  const size = mode === 'graph' ? [graph().wide, graph().high + 20] : [LEFT + count * columnWidth + 20 + 7.3 * long, TOP + (rows.length + 1) * ROW];
  const [width, height] = size.map(Math.ceil), pen = new SvgPen(width, height);
  drawOn(pen, {zoom: 1, x: 0, y: 0, width, height, isWhole: true});
  return pen.parts.join('') + '</svg>\\n';
}

function resize() {
  view.ratio = window.devicePixelRatio || 1;
  view.width = stage.clientWidth; view.height = stage.clientHeight;
  canvas.width = Math.round(view.width * view.ratio); canvas.height = Math.round(view.height * view.ratio);
  // the columns take what the window has: all of it where it is narrow, some three fifths where there is room for words beside them
  const room = view.width - LEFT;
  columnWidth = Math.max(56, Math.min(240, (room > 620 ? room * 0.58 : room) / count));
  clamp(); draw(); listRows();
}

// the zoom that has all in sight
const wholeZoom = () => mode === 'graph' ? Math.min(1, view.width / graph().wide, view.height / graph().high) : (view.height - TOP) / ((rows.length + 1) * ROW);
function zoomAt(factor, x, y) {
  const zoom = Math.min(3, Math.max(Math.min(0.02, wholeZoom()), view.zoom * factor)), by = zoom / view.zoom;
  const wider = mode === 'graph' ? by : across(zoom) / across(view.zoom), left = mode === 'graph' ? 0 : LEFT, top = mode === 'graph' ? 0 : TOP;
  view.x = (x - left) * (1 - wider) + view.x * wider;
  view.y = (y - top) * (1 - by) + view.y * by;
  view.zoom = zoom;
  clamp(); paint();
}

// Each view has its own zoom and place.
const views = {diagram: {zoom: 1, x: 0, y: 0}, graph: null};
function setMode(next) {
  const {zoom, x, y} = view;
  views[mode] = {zoom, x, y};
  mode = next;
  if (!views[mode]) { view.zoom = 1; views[mode] = {zoom: Math.max(0.8, wholeZoom()), x: 0, y: 0}; }
  Object.assign(view, views[mode]);
  for (const button of document.querySelectorAll('#views button')) button.setAttribute('aria-pressed', button.dataset.mode === mode);
  for (const key of document.querySelectorAll('#key > span')) key.hidden = key.dataset.mode !== undefined && key.dataset.mode !== mode;
  if (mode === 'graph' && chosen) centre(chosen);
  clamp(); paint();
}
function centre(name) {
  const one = graph().byName.get(name);
  if (one && !isIn(one.box, {...view, x: view.x - BOX * view.zoom / 2, width: view.width - BOX * view.zoom})) Object.assign(view, {x: view.width / 2 - (one.box.x + BOX / 2) * view.zoom, y: view.height / 2 - one.box.y * view.zoom});
}

function select(index) {
  selected = index;
  if (index >= 0) {
    words.textContent = entries[index].line;
    const y = Y(placeIn[index]);
    if (y < TOP + ROW || y > view.height - ROW) view.y += view.height / 2 - y;
  }
  clamp(); paint();
}

function choose(name) {
  chosen = name;
  if (!name || mode === 'diagram') { find.value = ''; wanted = null; }
  if (name) {
    const it = instances.get(name);
    if (mode === 'graph') centre(name);
    words.textContent = `${name}: ${it.command || 'no command is known'}; ${it.path === 'open' ? 'not committed' : 'committed, ' + it.path}${it.reply ? '; replied ' + it.reply : ''}; ${it.events} events`;
  }
  keep();
}

// The list has rows for what is in sight alone.
const HIGH = 24;
function listRows() {
  const first = Math.max(0, Math.floor(list.scrollTop / HIGH) - 4), last = Math.min(listed.length, first + Math.ceil(list.clientHeight / HIGH) + 9);
  const made = document.createDocumentFragment();
  const space = document.createElement('div');
  space.style.height = `${listed.length * HIGH}px`;
  made.append(space);
  for (let k = first; k < last; k++) {
    const it = listed[k], row = document.createElement('div');
    row.className = it.name === chosen ? 'row on' : 'row';
    row.style.top = `${k * HIGH}px`;
    row.dataset.name = it.name;
    for (const [text, of] of [[it.name], [it.command, isSeal(it.name) ? 'seal' : ''], [it.client], [it.path, it.path], [it.reply, it.reply === 'closed' ? 'closed' : '']]) {
      const cell = document.createElement('span');
      cell.textContent = text; cell.title = text;
      if (of) cell.className = of;
      row.append(cell);
    }
    made.append(row);
  }
  list.replaceChildren(made);
}

list.addEventListener('scroll', listRows);
list.addEventListener('click', event => {
  const row = event.target.closest('.row');
  if (row) choose(row.dataset.name === chosen ? null : row.dataset.name);
});
list.addEventListener('keydown', event => {
  const by = {ArrowDown: 1, ArrowUp: -1}[event.key];
  if (!by || !listed.length) return;
  event.preventDefault();
  const at = listed.findIndex(it => it.name === chosen), next = Math.max(0, Math.min(listed.length - 1, at + by));
  if (next * HIGH < list.scrollTop || (next + 1) * HIGH > list.scrollTop + list.clientHeight) list.scrollTop = next * HIGH - list.clientHeight / 2;
  choose(listed[next].name);
});
find.addEventListener('input', () => {
  const text = find.value.trim();
  chosen = null;
  wanted = text ? new RegExp(text.replace(/[.*+?^${}()|[\\]\\\\]/g, '\\\\$&'), 'i') : null;
  keep();
});
document.getElementById('head').addEventListener('click', event => {
  const button = event.target.closest('button');
  if (!button) return;
  order = {by: button.dataset.by, way: order.by === button.dataset.by ? -order.way : 1};
  for (const it of document.querySelectorAll('#head button')) it.setAttribute('aria-sort', it === button ? order.way > 0 ? 'ascending' : 'descending' : 'none');
  listed = wanted ? listed.slice().sort((a, b) => ordered.indexOf(a) - ordered.indexOf(b)) : ordered;
  list.scrollTop = 0;
  sortList();
});
for (const button of document.querySelectorAll('#views button')) button.addEventListener('click', () => setMode(button.dataset.mode));
document.getElementById('save').addEventListener('click', () => {
  const link = document.createElement('a');
  link.href = URL.createObjectURL(new Blob([picture()], {type: 'image/svg+xml'}));
  link.download = `epaxos-${mode}.svg`;
  link.click();
  setTimeout(() => URL.revokeObjectURL(link.href), 1000);
});
document.getElementById('all').addEventListener('click', () => choose(null));
for (const button of document.querySelectorAll('#zoom button')) button.addEventListener('click', () => {
  const by = +button.dataset.by;
  if (by === 1) { Object.assign(view, {zoom: 1, x: 0, y: 0}); clamp(); paint(); }
  else zoomAt(by || wholeZoom() / view.zoom, mode === 'graph' ? 0 : LEFT, mode === 'graph' ? 0 : TOP);
});

const held = new Map();
let moved = 0;
canvas.addEventListener('pointerdown', event => { held.set(event.pointerId, [event.offsetX, event.offsetY]); moved = 0; canvas.setPointerCapture(event.pointerId); canvas.classList.add('held'); });
canvas.addEventListener('pointermove', event => {
  const was = held.get(event.pointerId);
  if (!was) return;
  const now = [event.offsetX, event.offsetY];
  if (held.size === 2) {
    const other = [...held].find(([id]) => id !== event.pointerId)[1];
    const apart = p => Math.hypot(p[0] - other[0], p[1] - other[1]) || 1;
    zoomAt(apart(now) / apart(was), (now[0] + other[0]) / 2, (now[1] + other[1]) / 2);
  } else { view.x += now[0] - was[0]; view.y += now[1] - was[1]; clamp(); paint(); }
  moved += Math.abs(now[0] - was[0]) + Math.abs(now[1] - was[1]);
  held.set(event.pointerId, now);
});
function release(event) {
  if (!held.delete(event.pointerId)) return;
  canvas.classList.remove('held');
  if (event.type === 'pointerup' && moved < 4) {
    if (mode === 'graph') {
      const x = (event.offsetX - view.x) / view.zoom, y = (event.offsetY - view.y) / view.zoom;
      const box = graph().boxes.find(it => it.x <= x && x <= it.x + BOX && it.y <= y && y <= it.y + it.high);
      const one = box && box.members[Math.max(0, Math.min(box.members.length - 1, Math.floor((y - box.y - 3) / LINE)))];
      if (one && one.it) choose(one.name === chosen ? null : one.name);
      return;
    }
    const place = Math.round((event.offsetY - TOP - view.y) / (ROW * view.zoom) - 0.7);
    if (event.offsetY > TOP && rows[place]) select(rows[place].index);
  }
}
canvas.addEventListener('pointerup', release);
canvas.addEventListener('pointercancel', release);
canvas.addEventListener('wheel', event => {
  event.preventDefault();
  if (event.ctrlKey || event.metaKey) zoomAt(Math.exp(-event.deltaY / 400), event.offsetX, event.offsetY);
  else { view.y -= event.deltaMode ? event.deltaY * 20 : event.deltaY; view.x -= event.deltaX; clamp(); paint(); }
}, {passive: false});
canvas.addEventListener('keydown', event => {
  const at = selected < 0 ? -1 : placeIn[selected];
  const pan = {ArrowDown: [0, -60], ArrowUp: [0, 60], ArrowLeft: [60, 0], ArrowRight: [-60, 0]}[event.key];
  if (mode === 'graph' && pan) { view.x += pan[0]; view.y += pan[1]; clamp(); paint(); event.preventDefault(); return; }
  if (event.key === 'ArrowDown' && rows[at + 1]) select(rows[at + 1].index);
  else if (event.key === 'ArrowUp' && rows[at - 1]) select(rows[at - 1].index);
  else if (event.key === 'PageDown' || event.key === 'PageUp') { view.y += (event.key === 'PageUp' ? 1 : -1) * view.height * 0.8; clamp(); paint(); }
  else if (event.key === '+' || event.key === '-') zoomAt(event.key === '+' ? 1.3 : 0.77, view.width / 2, view.height / 2);
  else if (event.key === 'Escape') choose(null);
  else return;
  event.preventDefault();
});

// The key has what occurs: of dots, arrows and marks in the diagram, of boxes in the graph.
const key = document.getElementById('key');
function explain(mark, name, text, of) {
  const item = document.createElement('span');
  const it = mark && document.createElement(mark);
  if (it) it.className = name;
  if (of) item.dataset.mode = of;
  item.append(...it ? [it, text] : [text]);
  key.append(item);
  return it;
}
for (const [kinds, name, text] of [[['propose'], 'propose', 'propose'], [['handle'], '', 'handle'], [['recover', 'give up'], 'recover', 'recover, give up'], [['execute'], 'execute', 'execute']])
  if (entries.some(it => kinds.includes(it.kind))) explain('s', name, text, 'diagram');
for (const kind in colors) if (arrows.some(it => it.kind === kind)) {
  const mark = explain('i', '', `${letters[kind]} ${kind}`, 'diagram');
  mark.style.borderTopColor = colors[kind];
  mark.style.borderTopStyle = answers.has(kind) ? 'dashed' : 'solid';
}
for (const path of ['fast', 'slow', 'recovered']) if (ordered.some(it => it.path === path)) explain('b', '', `committed, ${path}`).style.background = pathColors[path];
if (ordered.some(it => isSeal(it.name))) explain('u', 'seal', 'a seal');
if (entries.some(it => it.closes)) explain('u', 'closed', 'answered closed', 'diagram');
if (arrows.some(it => it.to < 0)) explain('', '', '\\u2715 never handled', 'diagram');
explain('u', 'together', 'depend on each other', 'graph').parentNode.hidden = true;
explain('u', 'missing', 'not committed, or not kept', 'graph').parentNode.hidden = true;

// The edition, and where no entry is kept, what `show` says of how many.
document.getElementById('edition').textContent = document.getElementById('edition').title = edition;
if (!lines.length && told.length > (edition ? 1 : 0)) words.textContent = told[told.length - 1];

new ResizeObserver(resize).observe(stage);
resize();
keep();
draw();
</script>
</body>
</html>
";
