// What a page does (JavaScript): it makes rows of the data of each line, marks those that a line changed, and steps by keys.

/// The script of a page, and its end.
pub const SCRIPT: &str = r#"<script>
'use strict';
const at = name => document.getElementById(name);
const quiz = 'quiz' in document.body.dataset;
const steps = [...document.querySelectorAll('script.step')].map(it => JSON.parse(it.textContent));

// Each line has what it changed of the machine: here the whole.
let machine = null;
for (const step of steps) {
  if (step.machine) machine = Object.assign({}, machine, step.machine);
  step.after = machine;
}
steps.forEach((step, place) => step.before = place ? steps[place - 1].after : null);

// The hart that is shown: that of the line, or of the last line that names one.
let seen = 0;
for (const step of steps) {
  if (step.trace.before) seen = step.trace.before.hart;
  step.hart = seen;
}

const number = hex => parseInt(hex, 16);
const slotsOf = state => [...Array(state.slots).keys()].map(slot => state['slot' + slot]).filter(it => it);
const lookOf = slot => 'slot' + slot % 8;
const isLeaf = entry => /[RWX]/.test(entry.flags.slice(1, 4));

// A row: its key, how it looks, its parts (a class and a text each), and how much it matters when not all rows fit.
const row = (key, look, parts, rank = 1) => ({ key, look, parts: parts.filter(part => part), rank });

function bytesOf(bytes, cell) {
  return bytes.map((byte, place) => {
    const touched = cell && place >= cell.at && place < cell.at + cell.width;
    return [touched ? 'byte touched' : 'byte', byte.toString(16).padStart(2, '0')];
  });
}

// A touched byte that is a letter, as a letter too.
function lettersOf(bytes, cell) {
  const touched = cell ? bytes.slice(cell.at, cell.at + cell.width).filter(byte => byte) : [];
  return touched.length && touched.every(byte => byte > 32 && byte < 127) && ['', String.fromCharCode(8220, ...touched, 8221)];
}

// The flags that are set.
const flagsOf = it => it.flags.replaceAll('-', '');
const offsetOf = address => '+0x' + (number(address) % 4096).toString(16);

function marksOf(state, entry, kind) {
  const frame = state.frames.frames.find(it => it.ppn === entry.ppn);
  return [
    entry.flags.includes('C') && ['mark', 'C'],
    kind === 'shared mapping' && entry.flags.includes('D') && ['mark', 'D'],
    frame && frame.count > 1 && !hidesCounts() && ['mark', '×' + frame.count],
  ];
}

function pageRows(state, slot, entry, name, kind, look = '') {
  const key = slot + '-' + entry.address, cell = state.cell;
  const shown = cell ? cell.rows.filter(it => it.slot === slot && it.page === entry.address) : [];
  const rows = [row('p' + key, look, [['name', name], ['', entry.address], ['', '→ ' + entry.ppn], ...marksOf(state, entry, kind)], shown.length ? 7 : 2)];
  for (const it of shown)
    rows.push(row('c' + key + '-' + it.address, 'bytes quiet', [['', offsetOf(it.address)], ...bytesOf(it.bytes, cell), lettersOf(it.bytes, cell)], 7));
  return rows;
}

function regionName(line) {
  return { 'shared mapping': 'shared', 'private mapping': 'private' }[line.kind] || line.kind;
}

// How many pages of a region are listed; past these only such whose bytes are shown, which no line brings or takes away.
const LISTED = 24;

function leavesOf(it, line) {
  const start = number(line.start), end = number(line.end);
  return it.entries.filter(entry => isLeaf(entry) && number(entry.address) >= start && number(entry.address) < end);
}

function regionRows(state, it, region) {
  const line = region.line, start = number(line.start), end = number(line.end), leaves = leavesOf(it, line);
  const name = regionName(line) + ' ' + line.rights;
  if (leaves.length === 1 && end - start === 4096 && line.file === undefined) return pageRows(state, it.slot, leaves[0], name, line.kind);
  const file = line.file !== undefined && ['', 'file ' + line.file + (line.offset ? ' + ' + line.offset : '')];
  const rows = [row('r' + it.slot + '-' + line.start, leaves.length ? '' : 'dim', [['name', name], file, ['', line.start + '..' + line.end]], leaves.length ? 3 : 1)];
  leaves.forEach((leaf, place) => rows.push(...pageRows(state, it.slot, leaf, '', line.kind, place < LISTED ? '' : 'quiet')));
  const more = region.settled - leaves.length;
  if (more > 0) rows.push(row('m' + it.slot + '-' + line.start + '-' + more, 'dim quiet', [['name', ''], ['', more + ' pages more']]));
  return rows;
}

function processRows(state) {
  const rows = [];
  for (const it of slotsOf(state)) {
    const harts = state.harts.filter(hart => hart.place.slot === it.slot).map(hart => 'hart ' + hart.place.hart + ': ' + hart.place.phase);
    rows.push(row('s' + it.slot, 'head', [['who ' + lookOf(it.slot), 'process ' + it.slot], ['', harts.length ? harts.join(', ') : 'on no hart']], 8));
    for (const region of it.regions) rows.push(...regionRows(state, it, region));
  }
  if (!rows.length) rows.push(row('none', 'head', [['', 'no process']], 8));
  return rows;
}

function walkedBy(step) {
  const request = step.trace.request;
  return new Set(request ? request.walk.map(word => word.table + '-' + word.index) : []);
}

function hartRows(state, step) {
  const rows = [], used = step.trace.request && step.trace.request.entry;
  for (const it of [...state.harts].sort((a, b) => (b.place.hart === step.hart) - (a.place.hart === step.hart))) {
    const place = it.place, here = place.hart === step.hart;
    rows.push(row('h' + place.hart, 'head', [['', 'hart ' + place.hart + ': ' + place.phase], place.slot !== undefined && ['who ' + lookOf(place.slot), String(place.slot)],
      ['', 'root ' + place.root], ['', 'ASID ' + place.asid]], here ? 8 : 3));
    if (!it.tlb.length) rows.push(row('e' + place.hart, 'dim quiet', [['', 'TLB: empty']], here ? 2 : 0));
    const times = new Map();
    for (const entry of it.tlb) {
      const page = entry.page + '-' + entry.asid, time = times.get(page) || 0;
      times.set(page, time + 1);
      const leaf = entry.leaf ? [['', '→ ' + entry.leaf.ppn], ['', flagsOf(entry.leaf)]] : [['', 'no leaf']];
      const look = here && used && used.number === entry.number && used.page === entry.page ? 'walked' : '';
      rows.push(row('b' + place.hart + '-' + page + '-' + time, look, [['', 'TLB ' + entry.number + ':'], ['', entry.page], ['', entry.global ? 'global' : 'ASID ' + entry.asid], ...leaf], look ? 7 : 2));
    }
  }
  return rows;
}

function entryRow(entry, depth, walked, still) {
  const look = (walked ? 'walked' : '') + (still ? ' quiet' : '');
  const to = isLeaf(entry) ? [['', entry.address], ['', '→ ' + entry.ppn], ['', flagsOf(entry)]] : [['', '→ table ' + entry.ppn]];
  return { ...row('w' + entry.table + '-' + entry.index + (still ? '-still' : ''), look, [['', (walked ? '▶' : ' ') + '[' + entry.index + ']'], ...to], walked ? 7 : isLeaf(entry) ? 2 : 3), depth };
}

// The slot of which the page tables are shown: that of the process on the line's hart, or of the one that was there.
function slotOf(state, step) {
  const hart = state.harts.find(it => it.place.hart === step.hart);
  return hart && hart.place.slot !== undefined ? hart.place.slot : step.trace.before && step.trace.before.slot;
}

function treeRows(state, step, slot) {
  const walk = step.trace.request ? step.trace.request.walk : [];
  const it = slotsOf(state).find(it => it.slot === slot), rows = [], walked = walkedBy(step), there = new Set();
  if (it) {
    rows.push(row('t' + it.slot, 'head', [['', 'page tables of'], ['who ' + lookOf(it.slot), String(it.slot)], ['', 'root ' + it.root]], 8));
    const still = new Set(it.regions.flatMap(region => leavesOf(it, region.line).slice(LISTED)));
    for (const entry of it.entries) {
      const key = entry.table + '-' + entry.index;
      there.add(key);
      rows.push(entryRow(entry, it.levels - entry.level, walked.has(key), still.has(entry)));
    }
  }
  const others = walk.filter(word => !there.has(word.table + '-' + word.index));
  for (const word of others) {
    const to = word.kind === 'table' || word.kind === 'leaf' ? '→ ' + (word.kind === 'table' ? 'table ' : '') + word.ppn : word.kind;
    rows.push(row('w' + word.table + '-' + word.index, 'walked quiet', [['', '▶' + word.table + '[' + word.index + ']'], ['', to], word.kind === 'leaf' && ['', flagsOf(word)]], 7));
  }
  return rows;
}

// Whether a user may have access to a page: the trapframe's and, above it, the trampoline's are the kernel's.
const isUsers = (state, it) => number(it.page) < number(state['slot' + it.slot].trapframe);

function nameOf(state, it) {
  const slot = slotsOf(state).find(other => other.slot === it.slot);
  const page = slot && it.page === slot.trapframe ? 'trapframe' : it.page;
  return ['who ' + lookOf(it.slot), it.slot + ':' + page];
}

// Where a frame is among others: which page of which region it has, if one has it alone.
function placeOf(state, frame) {
  const name = frame.names[0], slot = name && state['slot' + name.slot], page = name && number(name.page);
  const region = slot && slot.regions.find(it => number(it.line.start) <= page && page < number(it.line.end));
  return frame.count === 1 && region ? { name, page, ppn: frame.ppn, at: number(frame.ppn), region: name.slot + '-' + region.line.start } : undefined;
}

function frameRows(state, step) {
  const it = state.frames, cell = state.cell, rows = [], frames = step.trace.changes && step.trace.changes.frames;
  // Of many frames not all are listed: then those that the line took or gave back are known by its trace.
  const some = [step.before, step.after].some(other => other && other.frames.more > 0);
  const moved = new Set(frames ? [...frames.taken, ...frames.given_back] : []);
  rows.push(row('frames', 'head', [['', 'frames: ' + it.free + ' free, ' + it.held + ' held,'], ['', it.shared + ' shared']], 8));
  for (const frame of it.frames) {
    const code = frame.ppn === '0x80000';
    const names = code ? [['', 'trampoline']] : frame.names.map(name => nameOf(state, name));
    const touched = cell && cell.rows.find(row => row.ppn === frame.ppn), place = placeOf(state, frame);
    const look = (code ? 'dim' : frame.count > 1 ? 'shared' : '') + (some && !moved.has(frame.ppn) ? ' quiet' : '');
    const parts = [['', frame.ppn], frame.count > 1 && ['mark', '×' + frame.count], ...names];
    rows.push({ ...row('f' + frame.ppn, look, parts, touched ? 7 : code ? 0 : frame.count > 1 ? 3 : 2), place, touched });
    if (touched && isUsers(state, touched)) {
      const bytes = [['', offsetOf(touched.address)], ...bytesOf(touched.bytes, cell), lettersOf(touched.bytes, cell)];
      rows.push({ ...row('d' + frame.ppn + '-' + touched.address, 'bytes quiet', bytes, 7), place, touched });
    }
  }
  if (it.more) rows.push(row('more pages ' + it.more, 'dim quiet', [['', 'and ' + it.more + ' frames more with pages']]));
  for (const other of it.tables) rows.push(row('tables' + other.slot, 'dim', [['who ' + lookOf(other.slot), String(other.slot)], ['', 'page tables: ' + other.count + ' frames']]));
  rows.push(row('kernel', 'dim', [['', 'the kernel: ' + it.kernel + ' frames']]));
  rows.push(row('free', 'dim', [['', 'free: ' + it.free + ' frames']], 3));
  return rows;
}

function fileRows(state) {
  const rows = [];
  for (const it of state.files) {
    rows.push(row('file' + it.number, 'head', [['', 'file ' + it.number + ': ' + it.length + ' bytes' + (it.writable ? ', rw' : ', r')]], 3));
    const place = state.cell && state.cell.file === it.number ? state.cell : null;
    if (it.bytes.length && !hidesBytes()) rows.push(row('i' + it.number + '-' + it.offset, 'bytes quiet', [['', '+' + it.offset], ...bytesOf(it.bytes, place), lettersOf(it.bytes, place)], 7));
  }
  return rows;
}

const isAudit = step => step.trace.answer !== undefined && step.trace.text.trim().split(/[^a-z]/)[0] === 'audit';

// Whether a line of such a kind is still to be answered.
const asksLater = isKind => quiz && steps.some((step, place) => (place > now || place === now && !open) && isKind(step));

// Before the last audit is answered no page shows frames, whose counts it asks; before the last load or copy, no bytes.
const hidesCounts = () => asksLater(isAudit);
const hidesBytes = () => asksLater(step => step.trace.answer !== undefined && /^ *(load|copyin|show)/.test(step.trace.text));

const PANELS = {
  processes: state => processRows(state),
  tables: (state, step, slot) => [...hartRows(state, step), ...treeRows(state, step, slot)],
  frames: (state, step) => [...hidesCounts() ? [row('frames', 'head', [['', 'frames: their counts are asked']], 8)] : frameRows(state, step), ...fileRows(state)],
};

// Rows of a state, with those that the line changed marked, and those that are gone between them.
function compared(rows, others) {
  const old = new Map(others.map(it => [it.key, it])), fresh = new Set(rows.map(it => it.key)), all = [...rows];
  for (const it of rows) {
    const was = old.get(it.key);
    it.changes = it.parts.map(([, text], place) => was ? !was.parts[place] || was.parts[place][1] !== text : false);
    it.changed = was ? was.parts.length !== it.parts.length || it.changes.includes(true) : !it.look.includes('quiet');
    it.come = it.changed && !was;
    if (it.changed) it.rank = Math.max(it.rank, Math.min(6, it.rank + 3));
  }
  let before = null;
  for (const it of others) {
    if (fresh.has(it.key)) { before = it.key; continue; }
    if (it.look.includes('quiet')) continue;
    const place = before === null ? 0 : all.findIndex(other => other.key === before) + 1;
    all.splice(place, 0, { ...it, look: it.look + ' gone', rank: 2 });
    before = it.key;
  }
  return all;
}

// Frames in a row, from this many on, have one row together where the line did the same to them: nothing, or it took them or gave them back.
const FOLDED = 6;

const isNext = (one, other) => one && other && one.region === other.region && (one.at === other.at || one.at + 1 === other.at && Math.abs(one.page - other.page) === 4096);
const fateOf = it => it.touched || it.changed && !it.come ? '' : it.look.includes('gone') ? 'gone' : it.changed ? 'come' : 'still';

// Rows in parts, each as long as each row of it goes on from the one before.
function partsOf(rows, goesOn) {
  const all = [];
  rows.forEach((it, place) => {
    if (place && goesOn(rows[place - 1], it)) all[all.length - 1].push(it);
    else all.push([it]);
  });
  return all;
}

function foldOf(rows) {
  const first = rows[0], from = first.place, to = rows[rows.length - 1].place;
  const who = ['who ' + lookOf(from.name.slot), from.name.slot + ':' + from.name.page + '..' + to.name.page];
  return { ...first, key: first.key + '..' + to.ppn, parts: [['', from.ppn + '..' + to.ppn], who, ['', rows.length + ' pages']] };
}

// Rows, with many frames in a row as one: frames with one reference, of pages in a row of a region.
function folded(rows) {
  return partsOf(rows, (one, other) => isNext(one.place, other.place)).flatMap(run => {
    if (run.filter(it => !it.look.includes('bytes')).length < FOLDED) return run;
    return partsOf(run, (one, other) => fateOf(one) && fateOf(one) === fateOf(other)).flatMap(part => part.length > 1 ? [foldOf(part)] : part);
  });
}

function nodeOf(it) {
  const node = document.createElement('div');
  node.className = 'row ' + it.look + (it.changed ? ' changed' : '');
  node.dataset.key = it.key;
  node.dataset.rank = it.rank;
  if (it.depth) node.style.paddingLeft = 'calc(.3rem + ' + it.depth + 'ch)';
  it.parts.forEach(([look, text], place) => {
    const part = document.createElement('span');
    part.className = look + (it.changes && it.changes[place] ? ' fresh' : '');
    part.style.whiteSpace = 'pre';
    part.textContent = text;
    node.append(part);
  });
  return node;
}

const fits = panel => document.body.classList.contains('all') || panel.scrollHeight <= panel.clientHeight;

// Lines without an answer are as large as fits; of others those are hidden that are farthest from the one that is shown.
function fitLines(panel) {
  for (const size of [1.7, 1.45, 1.2, 1, .85]) {
    panel.style.fontSize = size + 'rem';
    if (panel.scrollHeight <= panel.clientHeight) break;
  }
  for (const it of [...panel.children].sort((a, b) => a.dataset.rank - b.dataset.rank))
    if (!fits(panel) && it.dataset.rank !== '90') it.hidden = true;
}

// Hides what matters least until the rest fits, and says how much is hidden.
function hideLeast(panel) {
  if (fits(panel)) return;
  const rows = [...panel.children].reverse().sort((one, other) => one.dataset.rank - other.dataset.rank), more = document.createElement('div');
  more.className = 'row more';
  more.onclick = () => turn('all');
  panel.append(more);
  const hide = count => {
    rows.forEach((it, place) => it.hidden = place < count);
    more.textContent = count + (count > 1 ? ' rows' : ' row') + ' more (key a)';
    return fits(panel);
  };
  let few = 1, many = rows.length;
  while (few < many) {
    const count = (few + many) >> 1;
    if (hide(count)) many = count;
    else few = count + 1;
  }
  hide(few);
}

// Makes the letters a little smaller before it hides what the line changed or walks.
function fit(panel) {
  panel.classList.remove('tight');
  hideLeast(panel);
  if (!panel.querySelector('.row[hidden]:is(.changed, .walked, .bytes)')) return;
  panel.querySelector('.more').remove();
  for (const it of panel.children) it.hidden = false;
  panel.classList.add('tight');
  hideLeast(panel);
}

function fill(panel, nodes, fitting) {
  panel.replaceChildren(...nodes);
  panel.scrollTop = 0;
  fitting(panel);
}

// Where PageDown stops: at each answer, and at the end of lines in a row without an answer.
const stops = steps.map((step, place) => place).filter(place => steps[place].trace.answer !== undefined || place === steps.length - 1 || steps[place + 1].trace.answer !== undefined);

let now = 0, open = true;

// A line that is too long to be read is cut.
const short = text => text.length > 96 ? text.slice(0, 90) + ' …' : text;

function lineNode(place, look) {
  const node = document.createElement('div'), text = steps[place].trace.text, answer = steps[place].trace.answer;
  node.className = look;
  node.dataset.line = place + 1;
  if (text.startsWith('#')) node.classList.add('note');
  node.dataset.rank = 90 - Math.abs(place - now);
  node.textContent = short(text) || ' ';
  if (answer !== undefined) {
    const part = document.createElement('span');
    part.className = 'answer';
    part.textContent = '  ⇒ ' + (place === now && !open ? '?' : answer);
    node.append(part);
  }
  node.onclick = () => show(place);
  return node;
}

// The lines from one on up to the one that is shown. A comment that goes on from a long line to the next is one paragraph.
function paragraphs(first) {
  const all = [];
  for (let place = first; place <= now; place++) {
    const text = steps[place].trace.text, line = place > first && steps[place - 1].trace.text;
    if (line && line.length > 60 && /^#/.test(line) && /^# +(?![0-9]+[.]|[a-z][)])[^ ]/.test(text)) all.push(all.pop() + ' ' + text.slice(1).trim());
    else all.push(text);
  }
  return all;
}

function linesOf() {
  const step = steps[now], nodes = [];
  if (step.trace.answer === undefined) {
    let first = now;
    while (first > 0 && steps[first - 1].trace.answer === undefined) first--;
    return paragraphs(first).map(text => {
      const node = document.createElement('div');
      node.className = text.startsWith('#') ? 'note' : '';
      node.textContent = text.replace(/^# ?/, '') || ' ';
      node.dataset.rank = 90;
      return node;
    });
  }
  const from = Math.max(0, now - 2), to = Math.min(steps.length - 1, quiz ? now : now + 2);
  for (let place = from; place <= to; place++) nodes.push(lineNode(place, place === now ? 'now' : ''));
  return nodes;
}

// How much a line of a trace matters: most of all why there is a fault, a refusal or an end, and by which rule; then what no panel shows.
function traceRank(step, text) {
  const request = step.trace.request;
  if (text === step.trace.note || request && text === request.reason) return 8;
  if (text.startsWith('regions: ')) return 7;
  if (/^(TLB of|  |hart )/.test(text)) return 1;
  if (/^(frames|references|then )/.test(text)) return 2;
  return /^level .* leaf|^uses /.test(text) ? 4 : 3;
}

function traceOf(step) {
  const told = open ? step.told : String.fromCharCode(10) + 'Space shows the answer, and what happens.';
  const hides = hidesCounts(), bare = line => hides ? line.replace(/, [0-9]+ references?$/, '') : line;
  const isTold = text => text && !(hides && /^(frames|references|since)/.test(text));
  return told.split(String.fromCharCode(10)).slice(1).map(line => bare(line).replace(/^ {8}/, '')).filter(isTold).map(text => {
    const node = document.createElement('div');
    node.textContent = text;
    node.dataset.rank = traceRank(step, text);
    return node;
  });
}

function draw() {
  const step = steps[now], prose = step.trace.answer === undefined;
  const shown = open ? step.after : step.before, state = shown && hidesBytes() ? { ...shown, cell: undefined } : shown;
  at('top').classList.toggle('prose', prose);
  document.body.classList.toggle('early', !state);
  fill(at('lines'), linesOf(), fitLines);
  fill(at('trace'), traceOf(step), fit);
  for (const [name, rowsOf] of Object.entries(PANELS)) {
    const asked = open ? step : { ...step, trace: { ...step.trace, request: undefined } };
    const slot = state && slotOf(state, step), rows = state ? rowsOf(state, asked, slot) : [];
    const others = open && step.before ? rowsOf(step.before, step, slot) : rows;
    const all = compared(rows, others);
    fill(at(name), (document.body.classList.contains('all') ? all : folded(all)).map(nodeOf), fit);
  }
  at('slider').value = now;
  at('place').textContent = (now + 1) + ' / ' + steps.length;
  const look = document.documentElement.dataset.chosen;
  history.replaceState(null, '', '#' + (now + 1) + (look ? ',' + look : ''));
}

// Shows a line; its answer too, unless it is asked for.
function show(place, answered = !quiz) {
  now = Math.max(0, Math.min(steps.length - 1, place));
  open = answered || steps[now].trace.answer === undefined;
  draw();
}

function on(next) {
  if (open) return next === undefined || next >= steps.length ? undefined : show(next);
  open = true;
  draw();
}

function turn(what) {
  if (what === 'all') document.body.classList.toggle('all');
  if (what === 'help') at('help').hidden = !at('help').hidden;
  if (what === 'dark') {
    const look = document.documentElement.classList.toggle('dark') ? 'dark' : 'light';
    document.documentElement.dataset.chosen = look;
  }
  draw();
}

function grow(by) {
  const style = document.documentElement.style, size = Number(style.getPropertyValue('--zoom')) || 1;
  style.setProperty('--zoom', Math.max(.5, Math.min(3, size + by)).toFixed(2));
  draw();
}

const KEYS = {
  ArrowRight: () => on(now + 1),
  ArrowLeft: () => show(now - 1, true),
  PageDown: () => on(stops.find(place => place > now)),
  ' ': () => on(stops.find(place => place > now)),
  PageUp: () => show(stops.filter(place => place < now).pop() || 0, true),
  Home: () => show(0),
  End: () => show(steps.length - 1),
  d: () => turn('dark'),
  a: () => turn('all'),
  '?': () => turn('help'),
  '+': () => grow(.1),
  '-': () => grow(-.1),
};

document.addEventListener('keydown', event => {
  if (event.ctrlKey || event.altKey || event.metaKey || !KEYS[event.key]) return;
  event.preventDefault();
  KEYS[event.key]();
});

// The fragment of the address: a line, and `dark` or `light`.
function read() {
  const [line, look] = location.hash.slice(1).split(',');
  if (look) document.documentElement.dataset.chosen = look;
  const chosen = document.documentElement.dataset.chosen;
  document.documentElement.classList.toggle('dark', chosen ? chosen === 'dark' : matchMedia('(prefers-color-scheme: dark)').matches);
  show((Number(line) || Number(document.body.dataset.line) || 1) - 1);
}

at('title').textContent = document.title;
at('slider').max = steps.length - 1;
at('slider').oninput = () => show(Number(at('slider').value));
at('slider').onchange = () => at('slider').blur();
at('first').onclick = KEYS.Home;
at('back').onclick = KEYS.PageUp;
at('on').onclick = KEYS.PageDown;
at('last').onclick = KEYS.End;
at('dark').onclick = KEYS.d;
at('ask').onclick = at('help').onclick = KEYS['?'];
addEventListener('hashchange', read);
addEventListener('resize', draw);
matchMedia('(prefers-color-scheme: dark)').addEventListener('change', read);
read();
</script>
</body>
</html>
"#;
