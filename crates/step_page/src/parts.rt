//! The parts of a page. Made by tools/page_parts of the files in page/.

/// What is before the files: the head, the style, and what the page shows.
pub const BEGIN: &[u8] = br####"<!DOCTYPE html>
<html lang="en">
<meta charset="utf-8">
<meta name="viewport" content="width=device-width, initial-scale=1">
<title>A run, step by step</title>
<style>
:root { --ink: #1f2933; --faint: #5b6770; --rule: #c3cbd3; --paper: #ffffff; --band: #f0f3f6; --now: #c0263d; --inside: #f6e3c5; --hatch: #a86f1d; --stands: #d7efda; --chosen: #1b6e34; --process0: #2f5f9e; --process1: #b85c1a; --process2: #1b7a45; --process3: #8e3a8e; --process4: #8a6a12; --process5: #1f7f8a; --process6: #a33b4f; --process7: #5a5fc0; }
@media (prefers-color-scheme: dark) { :root { --ink: #e6eaee; --faint: #a7b2bc; --rule: #4a5560; --paper: #14191e; --band: #20272e; --now: #ff7a8a; --inside: #4a3a1c; --hatch: #d9a24e; --stands: #1d4427; --chosen: #7fd494; --process0: #7fb0f0; --process1: #f0a060; --process2: #6fd49a; --process3: #d58ad5; --process4: #d9bd62; --process5: #6fd0db; --process6: #f08a9c; --process7: #a9adf5; } }
@media print { :root { --ink: #000000; --faint: #444444; --rule: #999999; --paper: #ffffff; --band: #eeeeee; --now: #c0263d; --inside: #f6e3c5; --hatch: #a86f1d; --stands: #d7efda; --chosen: #1b6e34; --process0: #2f5f9e; --process1: #b85c1a; --process2: #1b7a45; --process3: #8e3a8e; --process4: #8a6a12; --process5: #1f7f8a; --process6: #a33b4f; --process7: #5a5fc0; } #controls, #rooms { display: none !important; } .lanes, .lanes svg, .tables section { max-height: none !important; } }
* { box-sizing: border-box; }
/* All sizes follow the window, so that a projector shows what is written to the last row. */
html { font-size: max(15px, calc(5px + min(0.9vw, 1.6vh))); }
body { margin: 0; padding: 0.4rem 0.9rem; color: var(--ink); background: var(--paper); font: 1rem/1.3 Helvetica, Arial, sans-serif; }
#runs { display: flex; gap: 1rem; }
.run { flex: 1; min-width: 0; }
header { display: flex; flex-wrap: wrap; gap: 0.2rem 1rem; align-items: baseline; }
h1 { font-size: 1.3rem; margin: 0; }
.about { margin: 0; color: var(--faint); }
code, .row { font-family: monospace; }
.protocol { background: var(--band); padding: 1px 6px; max-height: 3.2em; overflow: auto; }
#rooms, #controls { display: flex; flex-wrap: wrap; gap: 0.25rem; align-items: center; margin: 0 0 0.3rem; }
#rooms[hidden] { display: none; }
#controls input { flex: 1; min-width: 8rem; }
#position { min-width: 8em; text-align: right; }
button, select { font: inherit; color: inherit; background: var(--band); border: 1px solid var(--rule); border-radius: 4px; padding: 0.1rem 0.5rem; }
button:focus-visible, select:focus-visible, input:focus-visible { outline: 3px solid var(--now); outline-offset: 1px; }
[role=tab][aria-selected=true], [aria-pressed=true] { font-weight: 700; border-color: var(--ink); }
.sentence { font-size: 1.3rem; line-height: 1.25; min-height: 4.5rem; border-left: 6px solid var(--now); padding-left: 0.75rem; }
.run + .run .sentence, .run:has(+ .run) .sentence { min-height: 6.1rem; }
small { font-size: 0.9em; }
.sentence small { display: block; font-size: 1.1rem; color: var(--faint); }
.lanes { max-height: 55vh; overflow: auto; }
.lanes svg { display: block; width: 100%; height: auto; max-height: max(55vh, var(--least)); }
#legend { font-size: 0.9rem; color: var(--faint); margin-top: 0.3rem; }
#legend p { margin: 0; }
.tables { display: flex; flex-wrap: wrap; gap: 0 1.7rem; align-items: flex-start; }
.tables section { max-height: 36vh; overflow: auto; }
.tables h2 { font-size: 1rem; margin: 0.15rem 0 0.1rem; }
.numbers, .values { order: -1; }
table { border-collapse: collapse; }
th, td { border: 1px solid var(--rule); padding: 1px 0.5rem; text-align: center; font-weight: 400; }
th { background: var(--band); }
td.text { text-align: left; }
.level1 { background: repeating-linear-gradient(45deg, var(--inside) 0 6px, var(--paper) 6px 9px); }
.level2 { background: var(--stands); }
.chosen { outline: 3px solid var(--chosen); outline-offset: -3px; font-weight: 700; }
.lost { text-decoration: line-through; }
.now { box-shadow: inset 0 0 0 2px var(--now); }
#refused { border: 1px solid var(--now); padding: 4px 10px; margin-top: 8px; }
@media (max-width: 699px) {
  #runs { flex-direction: column; }
  #controls input { flex-basis: 100%; order: 1; }
  th, td { padding: 1px 0.25rem; }
}
</style>
<main>
<div id="rooms" role="tablist" aria-label="Rooms"></div>
<div id="controls">
<button id="first" title="To the beginning (Home)">|&#9664;</button>
<button id="turn-back" title="A turn back (Shift and left arrow)">&#9664;&#9664;</button>
<button id="back" title="A step back (left arrow)">&#9664;</button>
<button id="play" title="Play or pause (space)">play</button>
<button id="on" title="A step on (right arrow)">&#9654;</button>
<button id="turn-on" title="A turn on (Shift and right arrow)">&#9654;&#9654;</button>
<button id="last" title="To the end (End)">&#9654;|</button>
<input id="slider" type="range" min="0" aria-label="Step">
<output id="position"></output>
<label>speed <select id="speed"><option value="2000">slow</option><option value="900" selected>normal</option><option value="250">fast</option></select></label>
<button id="difference" title="To the first difference (d)" hidden></button>
<button id="future" title="Hide or show what is still to come (h)" aria-pressed="false"></button>
</div>
<div id="runs"></div>
<details id="legend" open>
<summary>Legend</summary>
<p><b>Steps</b>: W store a write, + count it, S snapshot, V propose it, 1 enter the unsafe section (hatched), ? look, 2 leave, the proposal stands, 0 leave, withdrawn, A ask, G get the view, r read a value, D store the decision; p0 r1 is a turn for process 0 in round 1; &#10005; is a crash</p>
<p><b>Words of memory</b>: level(i,p,r), view(i,p,r) and value(i,p,r) are written by simulator i, for process p in round r; step(i,p) and out(i,p) by simulator i, for process p. Agreement (p,r) is on the snapshot of process p in round r. A decision is stored with 1 added, since 0 is none.</p>
<p><b>Agreements</b>: level 0 outside, 1 in the unsafe section, 2 the proposal counts. &#10216;1 .&#10217; is a proposal by numbers of writes, not by values: the snapshot has 1 write of process 0 and none of process 1. The chosen proposal is framed, the others are struck through; a red frame is around what this step touches.</p>
</details>
<aside id="refused" hidden></aside>
</main>
<noscript>This page needs JavaScript. The text of its steps is that of bgview trace.</noscript>
"####;

/// What is after the files: the code.
pub const END: &[u8] = br####"<script>
'use strict';
// A page to step through the rooms of one file, or of two next to each other. All that it shows follows from texts in the page: a script
// and what `bgview trace --json` answers to it, or a transcript and what `bgview why` answers to it.

// ---- for all files

const at = id => document.getElementById(id);
const range = count => Array.from({ length: count }, (_, index) => index);
const escaped = text => String(text).replace(/[&<>"]/g, byte => '&#' + byte.charCodeAt(0) + ';');
const hueOf = process => `var(--process${process % 8})`;

// What a block says of its room.
function readSpec(block) {
  const words = name => (block.find(line => line.startsWith(name + ' ')) || '').split(' ').slice(1);
  const isReduction = block[0] === 'reduction 1'; // the inputs are those of the simulators
  const inputs = words('inputs');
  return {
    name: words('room')[0],
    isReduction,
    inputs,
    processes: isReduction ? Number(words('processes')[0]) : inputs.length,
    simulators: isReduction ? inputs.length : Number(words('simulators')[0]),
    rounds: Number(words('rounds')[0]),
    turns: Number(words('turns')[0]),
    protocol: block.slice(block.indexOf('protocol') + 1),
  };
}

const table = rows => `<table>${rows.map(row => `<tr>${row.join('')}</tr>`).join('')}</table>`;
// Each cell has a hint, which a browser shows if the mouse is on it.
const cell = (text, hint, ...classes) => `<td title="${escaped(hint)}" class="${classes.filter(Boolean).join(' ')}">${text}</td>`;
const headCell = (text, hint) => `<th title="${escaped(hint)}">${text}</th>`;
const corner = '<th></th>';
const section = (name, title, body) => `<section class="${name}"><h2>${title}</h2>${body}</section>`;

// Some things in words: a, b and c.
const listed = words => words.join(', ').replace(/, ([^,]*)$/, ' and $1');
const many = (number, thing) => `${number} ${thing}${number === 1 ? '' : thing.endsWith('s') ? 'es' : 's'}`;
const named = simulators => (simulators.length === 1 ? 'simulator ' : 'simulators ') + listed(simulators);

// ---- a script and its trace: the moments of each room

// The blocks of a script's entries, in order: the lines of one after the line `open`, and null for a command.
function blocksOf(script) {
  const lines = script.split('\n');
  const blocks = [];
  for (let at = 0; at < lines.length; at++) {
    if (lines[at] === 'open') {
      const found = lines.indexOf('end', at);
      const end = found < 0 ? lines.length : found; // a block without an end takes all that is left
      blocks.push(lines.slice(at + 1, end));
      at = end;
    } else if (lines[at] !== '') {
      blocks.push(null);
    }
  }
  return blocks;
}

// The replies of a trace, each with the steps that its command took: a trace has a line of JSON for each reply and for each step.
function readReplies(trace) {
  const replies = [];
  for (const line of trace.split('\n').filter(Boolean)) {
    const said = JSON.parse(line);
    if (said.reply) replies.push({ said, taken: [] });
    else replies.at(-1).taken.push(said);
  }
  return replies;
}

// The letter of a step by its line, as in the pictures of `bgview draw`. A step that enters or leaves an agreement has the level that it comes to.
const LETTERS = { propose: 'W', input: 'r', write: 'W', raise: '+', snap: 'S', show: 'V', look: '?', ask: 'A', view: 'G', values: 'r', out: 'D' };
const letterOf = ({ simulator, access: { line, after } }) => LETTERS[line] ?? String(after[simulator]);

// A step as a moment of its room. `spent`: the processes of which the trace says at this moment that they are out of rounds.
function momentOf(step) {
  const { simulator, turn, process, round, end } = step;
  return { ...step, name: `simulator ${simulator}, turn ${turn}, process ${process}, round ${round}`, letter: letterOf(step), spent: end?.state === 'spent' ? [process] : [] };
}

// What a reply, and the steps of its command, add to the moments of a room.
function addMoments(moments, { reply, simulator, last, processes }, taken) {
  for (const step of taken) moments.push(momentOf(step));
  if (reply === 'crash' && last === 'crashed') moments.push({ crash: true, simulator, spent: [] });
  if (reply === 'report') moments.at(-1)?.spent.push(...range(processes.length).filter(p => processes[p].state === 'spent'));
}

// The name of a command may be no text.
const refusalText = ({ line, room, fault, words }) => `${line ? `line ${line}` : room ?? '\ufffd'} refused ${fault.join(' ')}: ${words}`;

// All rooms that the script opened, in order, and what was refused. `open` says, if anything, which outcomes are open after each command.
function readScript(script, trace, open = '') {
  const blocks = blocksOf(script);
  const rooms = [];
  const openings = readOpenings(open);
  const byName = new Map();
  const refused = [];
  readReplies(trace).forEach(({ said, taken }, index) => {
    if (said.reply === 'refused') {
      refused.push(refusalText(said));
      return;
    }
    if (said.reply === 'opened') {
      rooms.push({ ...readSpec(blocks[index]), moments: [], openings: [], show: SIMULATION });
      byName.set(said.room, rooms.at(-1));
    } else {
      addMoments(byName.get(said.room).moments, said, taken);
    }
    if (openings[index]?.room) addOpening(byName.get(said.room), openings[index]);
  });
  return { rooms, refused };
}

// ---- a simulated room after a number of moments: the words of its memory, and what follows from them

const keyOf = (...numbers) => numbers.join(',');

function emptyState() {
  return {
    words: new Map(), // of the memory, by kind and numbers of their place: what the last step on it left there, for each memory word
    agreements: new Map(), // by process and round: which proposal is chosen for good, and since which moment
    read: new Map(), // by simulator, process and round: the moment at which the snapshot takes effect if it is chosen
    events: [], // those that took effect for certain
    decisions: new Map(), // by simulator: what it has decided
    crashed: new Set(), // simulators
    stopped: new Set(), // simulators that have crashed or ended their last turn
    spent: new Set(), // processes that are out of rounds once the agreement of their last round is resolved
  };
}

const keyOfPlace = ({ kind, simulator, process, round }) => keyOf(kind, simulator, process, round);
const wordsAt = (state, place) => Object.values(state.words.get(keyOfPlace(place)) ?? {});

function store(state, { place, after }) {
  const key = keyOfPlace(place);
  state.words.set(key, { ...state.words.get(key), [place.word ?? 0]: after });
}

// The agreement that a step is on, with its levels or a proposal, which in the round 0 of a reduction is an input: the first time that a proposal is chosen for good is kept.
function noteAgreement(state, { access: { place: { kind, process, round } }, agreement }, at) {
  if (kind !== 'levels' && kind !== 'view' && !(kind === 'value' && round === 0)) return;
  const key = keyOf(process, round);
  const known = state.agreements.get(key) ?? { process, round, chosen: null };
  const isChosen = known.chosen === null && agreement !== null && agreement.chosen !== null;
  state.agreements.set(key, isChosen ? { ...known, chosen: { simulator: agreement.chosen, at } } : known);
}

function noteEffect(state, { simulator, process, round, effect }, at) {
  if (effect?.event === 'snap') state.read.set(keyOf(simulator, process, round), at);
  else if (effect) state.events.push({ at, known: at, process: effect.process, text: `${effect.event} ${effect.value}`, isReported: true });
}

// The state after one more moment, whose number is `at`.
function apply(state, room, moment, at) {
  moment.spent.forEach(process => state.spent.add(process));
  if (moment.crash || (moment.turn === room.turns && moment.end)) state.stopped.add(moment.simulator);
  if (moment.crash) {
    state.crashed.add(moment.simulator);
    return;
  }
  store(state, moment.access);
  if (moment.access.decides !== null) state.decisions.set(moment.simulator, moment.access.decides);
  noteAgreement(state, moment, at);
  noteEffect(state, moment, at);
}

function stateAt(room, count) {
  const state = emptyState();
  room.moments.slice(0, count).forEach((moment, at) => apply(state, room, moment, at));
  return state;
}

// How many writes of a process a simulator has counted. If a memory takes several words, one of them has this number, and the others have 0.
const countedBy = (state, simulator, process) => Math.max(0, ...wordsAt(state, { kind: 'steps' }).map(rows => rows[simulator][process]));

const levelsOf = (state, room, { process, round }) => wordsAt(state, { kind: 'levels', process, round })[0] ?? range(room.simulators).map(() => 0);

// An agreement is resolved, so that its result can be read, once a simulator is at level 2 and none is at level 1.
const isResolved = levels => levels.includes(2) && !levels.includes(1);

// What a simulator proposes: of each process the number of its writes, or in the round 0 of a reduction the process's input; or null.
function proposalOf(state, room, simulator, { process, round }) {
  if (round === 0) return wordsAt(state, { kind: 'value', simulator, process, round }).slice(0, 1).concat([null])[0];
  const rows = wordsAt(state, { kind: 'view', simulator, process, round }).flat();
  return rows.length === 0 ? null : range(room.processes).map(p => Math.max(...rows.map(row => row[p])));
}

// The word that some simulator has at a place. All that have it have the same.
const wordOfAny = (state, room, place) => range(room.simulators).flatMap(simulator => wordsAt(state, { ...place, simulator }))[0];
const valueOf = (state, room, process, round) => wordOfAny(state, room, { kind: 'value', process, round });
const decisionOf = (state, room, process) => wordOfAny(state, room, { kind: 'out', process });

// A report has the snapshot of an agreement once that is resolved, or something rests on it: a later write of the process, or its decision.
function isReported(state, room, { process, round }) {
  const writes = Math.max(...range(room.simulators).map(simulator => countedBy(state, simulator, process)));
  return isResolved(levelsOf(state, room, { process, round })) || round < writes || decisionOf(state, room, process) !== undefined;
}

// The snapshots that are agreed on, each at the moment at which the chosen proposal was read.
function snapshotsOf(state, room) {
  return [...state.agreements.values()].filter(({ round, chosen }) => round > 0 && chosen !== null).map(agreement => {
    const { process, round, chosen: { simulator, at } } = agreement;
    const shown = proposalOf(state, room, simulator, agreement).map((number, p) => (number === 0 ? '.' : valueOf(state, room, p, number)));
    return { at: state.read.get(keyOf(simulator, process, round)), known: at, process, text: 'snap ' + shown.join(' '), isReported: isReported(state, room, agreement) };
  });
}

// All events of a state's processes, in the order in which they take effect.
const eventsOf = (state, room) => [...state.events, ...snapshotsOf(state, room)].sort((one, other) => one.at - other.at);

// ---- hints: what a cell of a table means, in words

const LEVELS = ['level 0: outside', 'level 1: in the unsafe section', 'level 2: its proposal counts'];

// A row of step numbers in words: how many writes of each process it has.
const writesIn = row => listed(row.map((number, p) => `${number === 0 ? 'no write' : many(number, 'write')} of process ${p}`));

const agreementHint = (process, round) => `agreement (${process},${round}): on the ${round === 0 ? `input of process ${process}` : `snapshot of process ${process} in round ${round}`}`;

const countHint = (simulator, process, number) => `step(${simulator},${process}): simulator ${simulator} has counted ${many(number, 'write')} of process ${process}`;

const DECISION_HINT = 'what a simulator has decided: the first decision of a process that it stored';
const decisionHint = (simulator, decision) => (decision === undefined ? `simulator ${simulator} has not decided` : `simulator ${simulator} has decided ${decision}`);

const proposedIn = row => (Array.isArray(row) ? `a snapshot with ${writesIn(row)}` : `the input ${row}`);
const proposalHint = (simulator, row, fate) => (row === null ? `; simulator ${simulator} proposes nothing yet` : `; it proposes ${proposedIn(row)}${fate}`);

const levelHint = (simulator, process, round, level, row, fate) => `simulator ${simulator} in agreement (${process},${round}): ${LEVELS[level]}${proposalHint(simulator, row, fate)}`;

// What the words of a result mean, by their first one.
const RESULTS = {
  resolved: 'some level is 2 and none is 1: every simulator may read the proposal, which can\'t change any more',
  blocked: 'a simulator crashed in the unsafe section, so some level is 1 for ever: no simulator may read a proposal',
  chosen: 'the choice can\'t change any more, but no simulator may read it while some level is 1',
  open: 'some level is 1: more than one proposal may still be chosen, or none counts yet',
  no: 'no level is 2',
};
const resultHint = result => RESULTS[/^\w+/.exec(result)[0]];

const valueHint = (process, round, value) => (value === undefined ? `process ${process} has not written in round ${round}` : `process ${process} writes ${value} in round ${round}`);

// What the words of a state mean, by their first one.
const STATES = {
  decided: 'it has ended',
  spent: 'it is out of rounds, and its protocol asks for one more write',
  held: 'it is blocked: a simulator crashed in the unsafe section of an agreement on its snapshot',
  may: 'it has not decided, and some simulator has turns left',
  no: 'each simulator has crashed or ended its last turn',
};
const stateHint = state => STATES[/^\w+/.exec(state)[0]];

const EVENTS_HINT = 'what the process has done, in the order in which it took effect: the values in a snapshot are those that were written, . is none';

// ---- drawing the lanes of simulators and processes

const SQUARE = 27, LANE = 42, EVENTS = 26, LEFT = 104, TOP = 16;

// How many moments of a long run are drawn, and how wide the picture is at least: alone, next to another run, and on a phone.
const WIDE = { columns: 31, width: 1030 };
const NARROW = { columns: 15, width: 596 };
const PHONE = { columns: 10, width: 434 };
let layout = WIDE;
let isFutureShown = true; // paler than what has passed

// The first moment that is drawn: all of a short run, and a part of a long one, around the current moment.
const firstDrawn = (total, count) => Math.max(0, Math.min(count - Math.ceil(layout.columns / 2), total - layout.columns));

const textAt = (x, y, text, more = '') => `<text x="${x}" y="${y}" ${more}>${escaped(text)}</text>`;

function drawSquare(moment, x, y, isDone) {
  const hue = hueOf(moment.process);
  const filled = '120D'.includes(moment.letter);
  const title = `<title>${escaped(`${moment.name}: ${moment.operation}: ${moment.shows}`)}</title>`;
  return `<g opacity="${isDone ? 1 : 0.4}">${title}<rect x="${x + 1}" y="${y}" width="${SQUARE - 2}" height="24" rx="4" fill="${filled ? hue : 'var(--paper)'}" stroke="${hue}" stroke-width="1.5"/>`
    + textAt(x + SQUARE / 2, y + 17, moment.letter, `text-anchor="middle" font-weight="700" fill="${filled ? 'var(--paper)' : 'var(--ink)'}"`) + '</g>';
}

// Where a simulator is in the unsafe section: from the step by which it enters to that by which it leaves, or to the last moment that is shown.
function insideOf(room, simulator, shown) {
  const parts = [];
  room.moments.slice(0, shown).forEach((moment, at) => {
    if (moment.simulator !== simulator) return;
    if (moment.letter === '1') parts.push({ from: at, to: shown });
    if (moment.letter === '2' || moment.letter === '0') parts[parts.length - 1].to = at + 1;
  });
  return parts;
}

// The name of a simulator, with a cross once it has crashed.
function drawName(room, simulator, count, y) {
  const hasCrashed = room.moments.slice(0, count).some(moment => moment.crash && moment.simulator === simulator);
  const cross = hasCrashed ? ' <tspan class="crashed" fill="var(--now)" font-weight="700">\u2715</tspan>' : '';
  return `<text class="name" x="2" y="${y + 17}" fill="var(--ink)">simulator ${simulator}${cross}</text>`;
}

function drawLane(room, simulator, first, count, y) {
  const shown = isFutureShown ? room.moments.length : count;
  const last = Math.min(first + layout.columns, shown);
  const x = at => LEFT + (at - first) * SQUARE;
  let lane = drawName(room, simulator, count, y);
  for (const { from, to } of insideOf(room, simulator, shown)) {
    const [begin, end] = [Math.max(from, first), Math.min(to, last)];
    if (begin < end) lane += `<rect x="${x(begin)}" y="${y - 4}" width="${(end - begin) * SQUARE}" height="32" fill="url(#hatch)"/>`;
  }
  range(last - first).map(index => first + index).filter(at => room.moments[at].simulator === simulator).forEach(at => {
    const moment = room.moments[at];
    if (moment.crash) {
      lane += textAt(x(at) + SQUARE / 2, y + 19, '\u2715', `text-anchor="middle" font-size="20" fill="var(--now)" opacity="${at < count ? 1 : 0.4}"`);
      return;
    }
    lane += drawSquare(moment, x(at), y, at < count);
    const before = room.moments[at - 1];
    if (!before || before.simulator !== simulator || before.turn !== moment.turn || at === first) {
      lane += textAt(x(at) + 2, y + 37, `p${moment.process} r${moment.round}`, `class="turn" font-size="13" fill="${hueOf(moment.process)}"`);
    }
  });
  return lane;
}

// An event in the lane of its process, tied to the square of the step at which it takes effect. One that isn't known yet is paler; one that
// a report doesn't have yet has a dashed border.
function drawEvent(room, event, first, count, y, left) {
  const x = LEFT + (event.at - first) * SQUARE + SQUARE / 2;
  const hue = hueOf(event.process);
  const from = TOP + room.moments[event.at].simulator * LANE + 24;
  const filled = event.text.startsWith('decide');
  const title = `<title>process ${event.process}: ${escaped(event.text)}; takes effect at step ${event.at + 1}</title>`;
  return `<g opacity="${event.known < count ? 1 : 0.35}">${title}<path d="M ${x} ${from} L ${Math.max(x, left + 8)} ${y}" stroke="${hue}" stroke-dasharray="2 3"/>`
    + `<rect x="${left}" y="${y}" width="${widthOf(event)}" height="20" rx="${event.text.startsWith('snap') ? 10 : 3}" fill="${filled ? hue : 'var(--paper)'}" stroke="${hue}"${room.unreported.has(event.at) ? ' stroke-dasharray="4 2"' : ''}/>`
    + textAt(left + 5, y + 15, event.text, `font-family="monospace" font-size="13" fill="${filled ? 'var(--paper)' : 'var(--ink)'}"`) + '</g>';
}

const widthOf = event => 10 + 7.9 * event.text.length;

// The line of the current moment. Boxes come after it, so that their texts aren't crossed.
const drawNow = (x, height) => `<path class="now-line" d="M ${x} 2 V ${height - 4}" stroke="var(--now)" stroke-width="2"/>`;

// The events of one process, none over another.
function drawEvents(room, events, first, count, y) {
  let free = 0;
  return events.map(event => {
    const left = Math.max(LEFT + (event.at - first) * SQUARE + SQUARE / 2 - 8, free);
    free = left + widthOf(event) + 3;
    return drawEvent(room, event, first, count, y, left);
  }).join('');
}

function drawLanes(room, count) {
  const total = room.moments.length;
  const first = firstDrawn(total, count);
  const top = TOP + room.simulators * LANE + 6;
  const bottom = top + room.processes * EVENTS;
  const height = bottom + (room.openings.length > 0 ? EVENTS : 0) + 6;
  const width = LEFT + (Math.min(total, layout.columns) + 1) * SQUARE + 60;
  room.events ??= eventsOf(stateAt(room, total), room);
  room.unreported = new Set(eventsOf(stateAt(room, count), room).filter(event => !event.isReported).map(event => event.at));
  const events = room.events.filter(event => event.at >= first && event.at < first + layout.columns && (isFutureShown || event.known < count));
  const now = LEFT + (count - first) * SQUARE;
  return `<svg viewBox="0 0 ${Math.max(width, layout.width)} ${height}" style="--least: ${height * 0.75}px" preserveAspectRatio="xMinYMin meet" role="img" aria-label="Lanes of simulators and processes" font-family="Helvetica, Arial, sans-serif" font-size="14">`
    + '<defs><pattern id="hatch" width="7" height="7" patternUnits="userSpaceOnUse" patternTransform="rotate(45)"><rect width="7" height="7" fill="var(--inside)"/><path d="M 0 0 V 7" stroke="var(--hatch)" stroke-width="2"/></pattern></defs>'
    + range(room.simulators).map(i => drawLane(room, i, first, count, TOP + i * LANE)).join('')
    + drawNow(now, height)
    + range(room.processes).map(p => textAt(2, top + p * EVENTS + 15, 'process ' + p, `fill="${hueOf(p)}"`) + `<path d="M 98 ${top + p * EVENTS + 10} H ${width}" stroke="var(--rule)"/>`).join('')
    + range(room.processes).map(p => drawEvents(room, events.filter(event => event.process === p), first, count, top + p * EVENTS)).join('')
    + (room.openings.length > 0 ? drawOpenings(room, first, count, bottom, width) : '')
    + '</svg>';
}

// ---- the outcomes that simulators can still reach, after each command of a script

// What `bgview outcomes --open --json` answers: an object for each reply, as a trace has one.
const readOpenings = answer => answer.split('\n').filter(Boolean).map(line => JSON.parse(line));

// How each process ends, in words.
const endsText = ends => ends.map(({ state, value }) => (state === 'decided' ? String(value) : state)).join(' ');

// Adds what is open in a room once a command has ended: `outcomes` is null if the search met its limit, and `isAll` says that no other outcome is open.
function addOpening(room, { open, complete }) {
  room.openings.push({ at: room.moments.length, outcomes: open && open.map(endsText), isAll: complete });
}

const openCount = ({ outcomes, isAll }) => (outcomes ? outcomes.length + (isAll ? '' : '+') : '?');

// Which of some outcomes are open no more.
const closedAmong = (outcomes, opening) => (opening.isAll ? outcomes.filter(outcome => !opening.outcomes.includes(outcome)) : []);

function openHint(room, index) {
  const opening = room.openings[index];
  const closed = index > 0 ? closedAmong(room.openings[index - 1].outcomes ?? [], opening) : [];
  return `after step ${opening.at}: ` + (opening.outcomes ? `${many(opening.outcomes.length, 'outcome')} can still be reached${opening.isAll ? '' : ', and maybe more'}` : 'the search met its limit') + closed.map(outcome => `; not any more: ${outcome}`).join('');
}

// The row of how many outcomes are open: a number at each moment at which it changes, and at the first one that is drawn.
function drawOpenings(room, first, count, y, width) {
  const last = first + layout.columns;
  const before = room.openings.findLastIndex(({ at }) => at <= first);
  const isShown = ({ at }, index) => index === before || (at > first && at <= last && openCount(room.openings[index]) !== openCount(room.openings[index - 1]));
  const now = room.openings.findLastIndex(({ at }) => at <= count);
  const numberAt = (opening, index) => {
    const x = LEFT + Math.max(0, opening.at - first) * SQUARE;
    const hasPassed = opening.at <= count;
    return `<text class="opening" x="${x}" y="${y + 15}" text-anchor="middle" font-weight="${index <= now ? 700 : 400}" fill="${index > 0 && opening.at > first ? 'var(--now)' : 'var(--ink)'}" opacity="${hasPassed ? 1 : 0.4}"><title>${escaped(openHint(room, index))}</title>${openCount(opening)}</text>`;
  };
  const numbers = room.openings.map((opening, index) => (isShown(opening, index) && (isFutureShown || opening.at <= count) ? numberAt(opening, index) : ''));
  return `<path d="M 98 ${y + 20} H ${width}" stroke="var(--rule)"/>` + textAt(2, y + 15, 'outcomes', 'fill="var(--ink)"') + numbers.join('');
}

const OPEN_HINTS = {
  open: 'some schedule of the simulators from here on leads to it',
  closed: 'no schedule of the simulators leads to it any more',
  not: 'it was not found again, but the search missed nodes, or met its limit',
};

// What is known of an outcome after the last of these commands: from which step on it can't be reached any more.
function standingOfOutcome(openings, outcome) {
  const closing = openings.find(opening => closedAmong([outcome], opening).length > 0);
  if (closing) return `closed by step ${closing.at}`;
  return openings.at(-1).outcomes?.includes(outcome) ? 'open' : 'not known';
}

// The outcomes that could be reached when the room was opened, and which of them still can.
function outcomes(room, count) {
  const openings = room.openings.filter(({ at }) => at <= count);
  if (openings.length === 0) return '';
  const known = [...new Set(openings.flatMap(opening => opening.outcomes ?? []))];
  const head = [corner, ...range(room.processes).map(processHead), headCell('result', 'whether some schedule of the simulators still leads to it')];
  const rows = known.map((outcome, index) => {
    const standing = standingOfOutcome(openings, outcome);
    const isNow = standing === `closed by step ${count}` && openings.at(-1).at === count;
    return [headCell(index + 1, 'an outcome: what becomes of each process'), ...outcome.split(' ').map((end, p) => cell(end, `process ${p} ${/^\d/.test(end) ? 'decides ' + end : 'is ' + end}`)), cell(standing, OPEN_HINTS[/^\w+/.exec(standing)[0]], 'text', isNow && 'now')];
  });
  const { at, isAll } = openings.at(-1);
  return section('outcomes', `Outcomes that could still be reached after step ${at}${isAll ? '' : ', as far as known'}`, table([head, ...rows]));
}

// ---- tables

const processHead = p => headCell('p' + p, 'process ' + p);
const simulatorHead = i => headCell('simulator ' + i, `level and proposal of simulator ${i}`);

function stepNumbers(room, state, moment) {
  const touched = (i, p) => moment && (moment.letter === 'S' || (moment.letter === '+' && moment.simulator === i && moment.process === p));
  const decides = i => moment && moment.simulator === i && Number.isInteger(moment.access?.decides);
  const head = [corner, ...range(room.processes).map(processHead), headCell('decision', DECISION_HINT)];
  const rows = range(room.simulators).map(i => {
    const hasCrashed = state.crashed.has(i);
    const counts = range(room.processes).map(p => countedBy(state, i, p));
    return [headCell(`simulator ${i}${hasCrashed ? ' \u2715' : ''}`, `how many writes of each process simulator ${i} has counted${hasCrashed ? '; it has crashed' : ''}`),
      ...counts.map((number, p) => cell(number, countHint(i, p, number), touched(i, p) && 'now')),
      cell(state.decisions.get(i) ?? '', decisionHint(i, state.decisions.get(i)), decides(i) && 'now')];
  });
  return section('numbers', 'Simulators: step numbers and decision', table([head, ...rows]));
}

// The state of an agreement: open, fixed, resolved, or blocked for ever.
function resultOf(state, chosen, levels) {
  const inside = range(levels.length).filter(i => levels[i] === 1);
  const blockers = inside.filter(i => state.crashed.has(i));
  const are = inside.length === 1 ? 'is' : 'are';
  if (isResolved(levels)) return `resolved: the proposal of simulator ${chosen.simulator}`;
  if (blockers.length > 0) return `blocked for ever by ${named(blockers)}`;
  if (chosen) return `chosen: simulator ${chosen.simulator}'s; not readable while ${named(inside)} ${are} inside`;
  return inside.length > 0 ? `open: ${named(inside)} ${are} inside` : 'no proposal stands';
}

function agreementRow(room, state, moment, agreement) {
  const { process, round, chosen } = agreement;
  const levels = levelsOf(state, room, agreement);
  const here = moment && moment.process === process && moment.round === round;
  const cells = range(room.simulators).map(i => {
    const row = proposalOf(state, room, i, agreement);
    const touched = here && ((moment.simulator === i && (round === 0 ? 'W120' : 'V120').includes(moment.letter)) || '?A'.includes(moment.letter));
    const entries = Array.isArray(row) ? row.map(number => number || '.').join(' ') : row;
    const proposal = row === null ? '' : ` <span class="row ${chosen && chosen.simulator !== i ? 'lost' : ''}">\u27e8${entries}\u27e9</span>`;
    const fate = !chosen ? '' : chosen.simulator === i ? '; it is chosen' : '; another one is chosen';
    return cell(`${levels[i]}${proposal}`, levelHint(i, process, round, levels[i], row, fate), 'level' + levels[i], chosen && chosen.simulator === i && 'chosen', touched && 'now');
  });
  const result = resultOf(state, chosen, levels);
  return [headCell(`p${process} r${round}`, agreementHint(process, round)), ...cells, cell(result, resultHint(result), 'text')];
}

function agreements(room, state, moment) {
  const ordered = [...state.agreements.values()].sort((one, other) => one.round - other.round || one.process - other.process);
  const head = [corner, ...range(room.simulators).map(simulatorHead), headCell('result', 'whether a proposal is chosen, and may be read')];
  return section('agreements', 'Agreements: level and proposal of each simulator', table([head, ...ordered.map(agreement => agreementRow(room, state, moment, agreement))]));
}

// What has become of a process by now, as a report says it, with all simulators that hold it.
function standingOf(room, state, process) {
  const decision = decisionOf(state, room, process);
  if (decision !== undefined) return `decided ${decision}`;
  if (state.spent.has(process) && isResolved(levelsOf(state, room, { process, round: room.rounds }))) return 'spent';
  const own = [...state.agreements.values()].filter(agreement => agreement.process === process);
  const holders = range(room.simulators).filter(i => state.crashed.has(i) && own.some(agreement => levelsOf(state, room, agreement)[i] === 1));
  if (holders.length > 0) return `held by ${named(holders)}`;
  return state.stopped.size === room.simulators ? 'no simulator left' : 'may still go on';
}

// The values that processes wrote, by round.
function values(room, state, moment) {
  const valued = range(room.processes).map(p => range(room.rounds).map(index => valueOf(state, room, p, index + 1)));
  const rounds = Math.max(0, ...valued.map(row => row.findLastIndex(value => value !== undefined) + 1));
  const place = moment?.access?.place;
  const touched = (p, round) => place?.kind === 'value' && place.process === p && place.round === round;
  const head = [corner, ...range(rounds).map(index => headCell('r' + (index + 1), 'round ' + (index + 1)))];
  const rows = valued.map((row, p) => [processHead(p), ...range(rounds).map(index => cell(row[index] ?? '', valueHint(p, index + 1, row[index]), touched(p, index + 1) && 'now'))]);
  return section('values', 'Values', table([head, ...rows]));
}

// An event as the table has it, which says so if the report of this moment doesn't have it yet.
const eventText = event => escaped(event.text) + (event.isReported ? '' : ' <small>(not in a report)</small>');

function processes(room, state) {
  const events = eventsOf(state, room);
  const rows = range(room.processes).map(p => {
    const standing = standingOf(room, state, p);
    return [processHead(p), cell(events.filter(event => event.process === p).map(eventText).join('; '), EVENTS_HINT, 'text', 'row'), cell(standing, stateHint(standing), 'text')];
  });
  return section('processes', 'Simulated processes', table([[corner, headCell('events', EVENTS_HINT), headCell('state', 'what has become of it')], ...rows]));
}

// What a simulated room shows after a number of moments.
const SIMULATION = {
  sentence(room, count) {
    const moment = room.moments[count - 1];
    if (!moment) return 'Nobody has taken a step.';
    if (moment.crash) return `<b>simulator ${moment.simulator}</b> crashes`;
    const { effect, decision, end, obstacle } = moment.notes;
    const more = [effect, decision, end, obstacle].filter(Boolean).map(text => `<small>${escaped(text)}</small>`).join('');
    return `<b>${escaped(moment.name)}</b>: ${escaped(moment.operation)} \u2192 <b>${escaped(moment.shows)}</b>${more}`;
  },
  lanes: drawLanes,
  tables(room, count) {
    const state = stateAt(room, count);
    const moment = room.moments[count - 1];
    return stepNumbers(room, state, moment) + agreements(room, state, moment) + values(room, state, moment) + processes(room, state) + outcomes(room, count);
  },
  isSameTurn: (one, other) => one.simulator === other.simulator && one.turn === other.turn && !one.crash === !other.crash,
};

// ---- a transcript and its verdicts: the events of each room, one by one

// The blocks of a transcript, with the line at which each begins, and its event lines.
function readTranscript(transcript) {
  const lines = transcript.split('\n');
  const first = lines.indexOf('events');
  const blocks = [];
  for (let from = 0; from < first;) {
    const found = lines.indexOf('end', from);
    const end = found < 0 || found > first ? first : found;
    blocks.push({ line: from + 1, ...readSpec(lines.slice(from, end)) });
    from = end + 1;
  }
  const events = lines.slice(first + 1).map((text, index) => ({ text, line: first + 2 + index })).filter(event => event.text !== '');
  return { blocks, events };
}

// An event by its line, NAME PROCESS DEED ..
function readEvent({ text, line }) {
  const [, process, deed, ...values] = text.split(' ');
  return { line, process: Number(process), deed, values, text: [deed, ...values].join(' '), because: '' };
}

// What `bgview why` answers: refused blocks, by their lines, and the verdicts on each room with the reasons.
function readVerdicts(answer) {
  const refused = new Map();
  const verdicts = new Map();
  let notes = [];
  for (const line of answer.split('\n')) {
    const block = /^line (\d+) refused /.exec(line);
    if (line.startsWith('    ')) {
      notes.push(line.trim());
    } else if (block) {
      refused.set(Number(block[1]), (notes = [line]));
    } else if (line !== '') {
      const name = line.split(' ')[0];
      notes = [line];
      verdicts.set(name, [...(verdicts.get(name) || []), notes]);
    }
  }
  return { refused, verdicts };
}

// The index of the event that a verdict names by its line, or -1.
function brokenBy(verdict, moments) {
  const [, line] = / line (\d+)$/.exec(verdict) || [];
  return moments.findIndex(moment => moment.line === Number(line));
}

// A room with its events; one that breaks its run or a task says why.
function judgedRoom(block, verdicts, events) {
  const moments = events.filter(event => event.text.startsWith(block.name + ' ')).map(readEvent);
  for (const [verdict, , ...reason] of verdicts) {
    const at = brokenBy(verdict, moments);
    if (at >= 0) moments[at].because = reason.join(' ');
  }
  const [run] = verdicts[0];
  return { ...block, moments, broken: run.includes(' is not a run') ? brokenBy(run, moments) : -1, verdicts: verdicts.map(([verdict]) => verdict), show: TRANSCRIPT };
}

function readJudged(transcript, answer) {
  const { blocks, events } = readTranscript(transcript);
  const { refused, verdicts } = readVerdicts(answer);
  const rooms = blocks.filter(block => !refused.has(block.line) && verdicts.has(block.name)).map(block => judgedRoom(block, verdicts.get(block.name), events));
  return { rooms, refused: [...refused.values()].map(notes => notes.join(': ')) };
}

// The writes of each process among the first events.
const writesOf = (room, count) => range(room.processes).map(p => room.moments.slice(0, count).filter(moment => moment.process === p && moment.deed === 'write'));
const rowOf = writes => writes.map(own => (own.length > 0 ? own[own.length - 1].values[0] : '.')).join(' ');

// What a process may do next after some events that are a run.
function nextOf(room, writes, process, count) {
  const last = room.moments.slice(0, count).findLast(moment => moment.process === process);
  if (!last) return 'write its first value';
  if (last.deed === 'write') return 'snap ' + rowOf(writes);
  if (last.deed === 'decide') return 'nothing: it has decided';
  return writes[process].length < room.rounds ? 'write or decide, as the protocol says' : 'decide, if the protocol says so: it has made all its writes';
}

// Of a long run as many events are drawn as there is room for, up to the current one and some more.
function drawnFrom(room, count) {
  let free = layout.width * 0.8;
  let first = Math.min(count + 3, room.moments.length);
  while (first > 0 && (free -= widthOf(room.moments[first - 1]) + 6) > 0) first--;
  return first;
}

function drawEventBox(room, index, count, x) {
  const moment = room.moments[index];
  const hue = index === room.broken ? 'var(--now)' : hueOf(moment.process);
  const filled = moment.deed === 'decide';
  const y = TOP + moment.process * EVENTS;
  return `<g opacity="${index < count ? 1 : 0.35}"><title>${escaped('line ' + moment.line)}</title>`
    + `<rect x="${x}" y="${y}" width="${widthOf(moment)}" height="20" rx="${moment.deed === 'snap' ? 10 : 3}" fill="${filled ? hue : 'var(--paper)'}" stroke="${hue}" stroke-width="${index === room.broken ? 3 : 1}"/>`
    + textAt(x + 5, y + 15, moment.text, `font-family="monospace" font-size="13" fill="${filled ? 'var(--paper)' : 'var(--ink)'}"`) + '</g>';
}

function drawEventLanes(room, count) {
  const first = drawnFrom(room, count);
  const height = TOP + room.processes * EVENTS + 6;
  const lanes = range(room.processes).map(p => textAt(2, TOP + p * EVENTS + 15, 'process ' + p, `fill="${hueOf(p)}"`) + `<path d="M 98 ${TOP + p * EVENTS + 10} H ${layout.width}" stroke="var(--rule)"/>`);
  let x = LEFT;
  let now = LEFT - 3;
  let boxes = '';
  for (let index = first; index < room.moments.length && x < layout.width - 60; index++) {
    if (room.moments[index].process < room.processes && (isFutureShown || index < count)) boxes += drawEventBox(room, index, count, x);
    x += widthOf(room.moments[index]) + 6;
    if (index < count) now = x - 3;
  }
  return `<svg viewBox="0 0 ${layout.width} ${height}" style="--least: ${height * 0.75}px" preserveAspectRatio="xMinYMin meet" role="img" aria-label="Events of the processes" font-family="Helvetica, Arial, sans-serif" font-size="14">${lanes.join('')}${drawNow(now, height)}${boxes}</svg>`;
}

// What a room of a transcript shows after some of its events.
const TRANSCRIPT = {
  sentence(room, count) {
    const moment = room.moments[count - 1];
    const verdicts = count === room.moments.length ? room.verdicts.map(verdict => `<small>${escaped(verdict)}</small>`).join('') : '';
    if (!moment) return 'Nothing has happened.' + verdicts;
    const broken = room.broken >= 0 && count > room.broken;
    const because = moment.because ? `<small class="because">${escaped(moment.because)}</small>` : broken ? '<small>after the event that breaks the run</small>' : '';
    return `line ${moment.line}: <b>process ${moment.process}</b>: <b>${escaped(moment.text)}</b>${because}${verdicts}`;
  },
  lanes: drawEventLanes,
  tables(room, count) {
    const known = room.broken >= 0 ? Math.min(count, room.broken) : count;
    const writes = writesOf(room, known);
    const moment = room.moments[count - 1];
    const head = [corner, headCell('writes', 'what it has written; the last one is in its cell'), headCell(known < count ? 'could do instead' : 'may do next', 'what the protocol and the memory allow')];
    const rows = range(room.processes).map(p => [processHead(p), cell(escaped(writes[p].map(write => write.values[0]).join(' ')), `the writes of process ${p}`, 'row', moment && moment.process === p && moment.deed === 'write' && 'now'),
      cell(escaped(nextOf(room, writes, p, known)), `what process ${p} may do`, 'text')]);
    return section('processes', 'Processes', table([head, ...rows]));
  },
  isSameTurn: (one, other) => one.process === other.process,
};

// ---- the page: steps through the rooms of one file, or of two next to each other

let runs = []; // of each file what readScript or readJudged reads
let whenShown = () => {}; // is called after each change of what is shown
let current = 0; // which room of each file is shown
let count = 0; // how many of its moments have passed
let timer = null;

const shownRooms = () => runs.map(run => run.rooms[current]).filter(Boolean);
const roomCount = () => Math.max(...runs.map(run => run.rooms.length));
const lengthOf = rooms => Math.max(0, ...rooms.map(room => room.moments.length));

// How many moments pass in two rooms until they differ, or null if they never do.
function firstDifference([one, other]) {
  if (!other) return null;
  const sentenceAt = (room, number) => (number <= room.moments.length ? room.show.sentence({ ...room, verdicts: [] }, number) : '');
  const found = range(lengthOf([one, other])).find(index => sentenceAt(one, index + 1) !== sentenceAt(other, index + 1));
  return found === undefined ? null : found + 1;
}

function differenceText(rooms) {
  const number = firstDifference(rooms);
  if (rooms.length < 2) return '';
  if (number === null) return 'The two runs are the same.';
  const ended = rooms.findIndex(room => room.moments.length < number);
  return `The two runs first differ at step ${number}` + (ended < 0 ? '.' : `: the ${ended === 0 ? 'first' : 'second'} has ended by then.`);
}

function panelOf(room) {
  const inputs = `, inputs ${room.inputs.join(' ')}`;
  const about = `${many(room.processes, 'process')}${room.isReduction ? '' : inputs}; ${many(room.simulators, 'simulator')}${room.isReduction ? inputs : ''}; ${many(room.rounds, 'round')}`;
  return `<section class="run"><header><h1>${escaped(room.name)}</h1><p class="about">${escaped(about)}</p><code class="protocol">${escaped(room.protocol.join(' '))}</code></header>`
    + '<div class="sentence" role="status" aria-live="polite"></div><div class="lanes"></div><div class="tables"></div></section>';
}

function showRooms() {
  const rooms = shownRooms();
  document.title = rooms[0].name + ', step by step';
  at('runs').innerHTML = rooms.map(panelOf).join('');
  at('slider').max = lengthOf(rooms);
  at('rooms').hidden = roomCount() < 2;
  at('rooms').innerHTML = range(roomCount()).map(index => {
    const names = new Set(runs.map(run => run.rooms[index]?.name).filter(Boolean));
    return `<button role="tab" aria-selected="${index === current}" data-room="${index}">${escaped([...names].join(' / '))}</button>`;
  }).join('');
  at('difference').textContent = differenceText(rooms);
  at('difference').hidden = rooms.length < 2;
  at('legend').hidden = !rooms.some(room => room.show === SIMULATION);
}

function showPanel(room, panel) {
  const reached = Math.min(count, room.moments.length);
  panel.querySelector('.sentence').innerHTML = room.show.sentence(room, reached);
  panel.querySelector('.lanes').innerHTML = room.show.lanes(room, reached);
  panel.querySelector('.tables').innerHTML = room.show.tables(room, reached);
}

// How much of a run is drawn: as much as can be read in this window.
let layoutHere = () => (innerWidth < 700 ? PHONE : runs.length > 1 ? NARROW : WIDE);

function show() {
  layout = layoutHere();
  const rooms = shownRooms();
  at('slider').value = count;
  at('position').textContent = `step ${count} of ${lengthOf(rooms)}`;
  rooms.forEach((room, index) => showPanel(room, at('runs').children[index]));
  at('future').textContent = isFutureShown ? 'hide the future' : 'show the future';
  at('future').setAttribute('aria-pressed', !isFutureShown);
  whenShown();
}

function hideOrShowFuture() {
  isFutureShown = !isFutureShown;
  show();
}

function go(to) {
  count = Math.max(0, Math.min(lengthOf(shownRooms()), to));
  show();
}

// To the end of this turn, or of the one before, in the longer run.
function goTurn(direction) {
  const longest = shownRooms().reduce((one, other) => (other.moments.length > one.moments.length ? other : one));
  const { moments, show: { isSameTurn } } = longest;
  let to = count + direction;
  while (to > 0 && to < moments.length && isSameTurn(moments[to - 1], moments[to])) to += direction;
  go(to);
}

function goToDifference() {
  const number = firstDifference(shownRooms());
  if (number !== null) go(number);
}

function open(room, to) {
  current = Math.max(0, Math.min(roomCount() - 1, room));
  showRooms();
  go(to);
}

function pause() {
  clearInterval(timer);
  timer = null;
  at('play').textContent = 'play';
}

function play() {
  const end = lengthOf(shownRooms());
  if (timer) return pause();
  if (count === end) go(0);
  at('play').textContent = 'pause';
  timer = setInterval(() => (count < end ? go(count + 1) : pause()), Number(at('speed').value));
}

const KEYS = {
  ArrowRight: event => (event.shiftKey ? goTurn(1) : go(count + 1)),
  ArrowLeft: event => (event.shiftKey ? goTurn(-1) : go(count - 1)),
  Home: () => go(0),
  End: () => go(Infinity),
  d: goToDifference,
  h: hideOrShowFuture,
  ' ': play,
};

function onKey(event) {
  const isOwn = event.target.matches('button, select') && event.key === ' ';
  if (!KEYS[event.key] || isOwn || event.target.matches('select') || event.ctrlKey || event.metaKey || event.altKey) return;
  event.preventDefault();
  KEYS[event.key](event);
}

function showRefused() {
  const refused = runs.flatMap(run => run.refused);
  at('refused').hidden = refused.length === 0;
  at('refused').textContent = 'Refused: ' + refused.join(' | ');
}

function bindControls() {
  at('first').onclick = () => go(0);
  at('turn-back').onclick = () => goTurn(-1);
  at('back').onclick = () => go(count - 1);
  at('play').onclick = play;
  at('on').onclick = () => go(count + 1);
  at('turn-on').onclick = () => goTurn(1);
  at('last').onclick = () => go(Infinity);
  at('difference').onclick = goToDifference;
  at('future').onclick = hideOrShowFuture;
  at('slider').oninput = event => go(Number(event.target.value));
  at('rooms').onclick = event => event.target.dataset.room && open(Number(event.target.dataset.room), 0);
}

// ---- the files in the page, and its address

let isEmpty = true; // so far: no file has any text

// Each file is an element of a class that says what it is, followed by the answer to it, and maybe by the outcomes that are open after each command.
function readFile(element) {
  const answer = element.nextElementSibling;
  const open = answer.nextElementSibling;
  isEmpty = isEmpty && element.textContent === '';
  return element.className === 'transcript' ? readJudged(element.textContent, answer.textContent) : readScript(element.textContent, answer.textContent, open?.className === 'open' ? open.textContent : '');
}

function fromAddress() {
  const [numbers, hidden] = location.hash.slice(1).split(',hidden');
  const [room, to] = numbers.split(',').map(Number);
  isFutureShown = hidden === undefined;
  open(room || 0, Number.isFinite(to) ? to : 0);
}

function start() {
  runs = [...document.querySelectorAll('.script, .transcript')].map(readFile);
  whenShown = () => history.replaceState(null, '', `#${current},${count}${isFutureShown ? '' : ',hidden'}`);
  showRefused();
  if (roomCount() === 0) {
    at('runs').textContent = isEmpty ? 'The file is empty. A shell empties the file that a command writes to before the command reads: `bgview page x > x` has lost x.' : 'The file opens no room.';
    return;
  }
  bindControls();
  onkeydown = onKey;
  onhashchange = fromAddress;
  onresize = show;
  fromAddress();
}

start();
</script>
</html>
"####;
