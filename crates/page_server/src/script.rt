//! What it does: page/text.js and 12 files behind it, written by `tools/page_files`.

/// What it does.
pub const SCRIPT: &str = r##"// What the page of rgwd does.
//
// It shows the telephones, does what is done at them, and draws the conversation as a ladder.
//
// It asks the program what happened since the last answer, ten times a second while it can be seen: the program's answers are
// whole as they are given, so none can wait for something to happen. All that comes from outside becomes text nodes alone.
//
// This file has what all others use: elements, clocks, and messages as text.
"use strict";

// The parameters that a row shows behind its head.
const TOLD = /^(S|R|O|M|RM|ES|I|C|D|N|X|K|Z|Z2|F|E|T|Q):/i;
// A gateway has so many lines at most.
const MOST_LINES = 96;
// The codecs of a gateway, by their payload types (RFC 3551, 6).
const CODECS = { 0: "PCMU", 8: "PCMA" };

const byId = (id) => document.getElementById(id);

// An element with these attributes and children; a text child becomes a text node.
function make(name, attributes, ...children) {
  const made = document.createElement(name);
  for (const [key, value] of Object.entries(attributes ?? {})) {
    made.setAttribute(key, value);
  }
  made.append(...children);
  return made;
}

function setText(element, text) {
  if (element.textContent !== text) {
    element.textContent = text;
  }
}

// So many of what a word names, in words: "1 connection", "2 connections".
function counted(count, word) {
  return `${count} ${word}${count === 1 ? "" : "s"}`;
}

// Forgets the oldest of a map that has grown past this by a quarter: many at once, since a map looks for its oldest past those that went.
function forget(map, most) {
  if (map.size > 1.25 * most) {
    [...map.keys()].slice(0, map.size - most).forEach((key) => map.delete(key));
  }
}

// ---- Steps

// So long, in ms, something is done at once.
const STEP = 25;
const step = { end: 0 };

// The browser gets its turn where a step has taken its time: it draws, and takes what the reader does.
async function rest() {
  if (performance.now() > step.end) {
    await new Promise((done) => setTimeout(done, 0));
    step.end = performance.now() + STEP;
  }
}

// ---- Clocks

// A moment in ms, as minutes, seconds and thousandths.
function clockText(moment) {
  if (moment === null) {
    return "";
  }
  const seconds = Math.floor(moment / 1000);
  const two = (number) => String(number).padStart(2, "0");
  const hours = Math.floor(seconds / 3600);
  const rest = `${two(Math.floor(seconds / 60) % 60)}:${two(seconds % 60)}.${String(moment % 1000).padStart(3, "0")}`;
  return hours > 0 ? `${hours}:${rest}` : rest;
}

// A time of day in ms, as its second, in UTC as the log has it.
function wallText(time) {
  return time === null ? "" : `${new Date(time).toISOString().slice(11, 19)}Z`;
}

// ---- Lines

// The lines that a text names, as `3, 7-12`; null where it names none.
function linesOf(text) {
  const lines = new Set();
  for (const [, first, last] of text.matchAll(/(\d{1,5})(?:\s*-\s*(\d{1,5}))?/g)) {
    const end = Math.min(Number(last ?? first), MOST_LINES);
    for (let line = Number(first); line <= end; line += 1) {
      lines.add(line);
    }
  }
  return lines.size > 0 || /\d/.test(text) ? lines : null;
}

// The local name of a line's endpoint.
function nameOf(line) {
  return `aaln/${line}`;
}

// The number of the line that an endpoint's name is of, or 0.
function lineOfName(name) {
  const found = /^aaln\/(\d+)(@|$)/i.exec(name);
  return found ? Number(found[1]) : 0;
}

// ---- Messages as text

const decoder = new TextDecoder("utf-8");

// What a hexadecimal digit is, by its code.
function digitOf(code) {
  return code < 58 ? code - 48 : (code & 95) - 55;
}

// The text that pairs of hexadecimal digits spell.
function textOfHex(hex) {
  const bytes = new Uint8Array(hex.length >> 1);
  for (let place = 0; place < bytes.length; place += 1) {
    bytes[place] = 16 * digitOf(hex.charCodeAt(2 * place)) + digitOf(hex.charCodeAt(2 * place + 1));
  }
  return decoder.decode(bytes);
}

// The pairs of hexadecimal digits that spell a text.
function hexOfText(text) {
  return [...new TextEncoder().encode(text)].map((byte) => byte.toString(16).padStart(2, "0")).join("");
}

// The messages of a datagram, which lines of a single dot part (RFC 3435, 3.5.5).
function messagesOf(text) {
  const messages = [[]];
  for (const line of text.split(/\r\n|\n/)) {
    if (line.trim() === ".") {
      messages.push([]);
    } else {
      messages[messages.length - 1].push(line);
    }
  }
  return messages.map((lines) => lines.join("\n"));
}

// What a session description says of where its media go and how, or null where there is none (RFC 3435, 3.4).
function readDescription(lines) {
  const first = (form) => lines.map((line) => form.exec(line.trim())).find((found) => found);
  const audio = first(/^m=audio (\d+) \S+ (\d+)/i);
  if (!audio) {
    return null;
  }
  const host = first(/^c=IN IP4 ([\d.]+)/i);
  const time = first(/^a=ptime:(\d+)/i);
  return {
    address: host ? `${host[1]}:${audio[1]}` : "",
    codec: CODECS[audio[2]] ?? `payload ${audio[2]}`,
    packetTime: time ? Number(time[1]) : null,
  };
}

// The value of a parameter, or an empty text.
function valueOf(parameters, name) {
  const found = parameters.map((line) => /^\s*(\w+)\s*:\s*(.*)$/.exec(line)).find((pair) => pair && pair[1].toUpperCase() === name);
  return found ? found[2].trim() : "";
}

// What a command's head says.
function readCommand(head, parameters) {
  const [, verb, id, endpoint] = head;
  return {
    is: "command",
    verb: verb.toUpperCase(),
    id: Number(id),
    endpoint: endpoint.toLowerCase(),
    line: lineOfName(endpoint),
    domain: /@(.+)$/.exec(endpoint)?.[1] ?? "",
    head: [verb.toUpperCase(), id, endpoint.replace(/@.*$/, "")],
    reason: "",
    isRequest: verb.toUpperCase() === "RQNT" || valueOf(parameters, "X") !== "",
    rings: /(^|,)\s*(L\/)?r[gs]\b/i.test(valueOf(parameters, "S")),
    asksForLifting: /(^|,)\s*(L\/)?hd\b/i.test(valueOf(parameters, "R")),
    observed: valueOf(parameters, "O"),
    disconnected: /^disconnected\b/i.test(valueOf(parameters, "RM")),
  };
}

// What a response's head says. One without words has those of its code.
function readResponse(head) {
  const [, digits, id, words] = head;
  const code = Number(digits);
  const said = (words ?? "").trim().slice(0, 40);
  const reason = said === "" || code >= 400 ? reasonOf(code) : "";
  return { is: "response", code, id: Number(id), line: 0, head: [digits, id, said], reason };
}

// A text of which the first line alone is shown, behind these words.
function readLine(text, words) {
  const [head] = text.split("\n");
  const label = text.trim() === "" ? "(empty)" : `${words}${head.trim().slice(0, 40)}`;
  return { is: "none", line: 0, head: [label, "", ""], reason: "", more: "", call: "", connection: "", named: 0, description: null };
}

// What a message is called, and what it names.
function readMessage(text) {
  const [head, ...rest] = text.split("\n");
  const body = rest.findIndex((line) => line.trim() === "");
  const parameters = body < 0 ? rest : rest.slice(0, body);
  const told = {
    more: parameters.filter((line) => TOLD.test(line.trim())).map((line) => line.trim()).join("  "),
    call: valueOf(parameters, "C"),
    connection: valueOf(parameters, "I").toUpperCase(),
    named: lineOfName(valueOf(parameters, "Z")),
    description: body < 0 ? null : readDescription(rest.slice(body)),
  };
  const command = /^\s*([A-Za-z]{4})\s+(\d{1,9})\s+(\S+)\s+MGCP/i.exec(head);
  if (command) {
    return { ...told, ...readCommand(command, parameters) };
  }
  const response = /^\s*(\d{3})\s+(\d{1,9})(\s.*)?$/.exec(head);
  if (response) {
    return { ...told, ...readResponse(response) };
  }
  return readLine(text, "");
}

// ---- Return codes

// What each return code says (RFC 3435, 2.4).
const REASONS = {
  0: "response acknowledgement",
  100: "the transaction is currently being executed",
  101: "the transaction has been queued for execution",
  200: "the requested transaction was executed normally",
  250: "the connection was deleted",
  400: "the transaction could not be executed, due to some unspecified transient error",
  401: "the phone is already off hook",
  402: "the phone is already on hook",
  403: "the endpoint does not have sufficient resources at this time",
  404: "insufficient bandwidth at this time",
  405: "the endpoint is restarting",
  406: "transaction time-out",
  407: "transaction aborted",
  409: "internal overload",
  410: "no endpoint available",
  500: "the endpoint is unknown",
  501: "the endpoint is not ready",
  502: "the endpoint does not have sufficient resources",
  503: "\"all of\" wildcard too complicated",
  504: "unknown or unsupported command",
  505: "unsupported RemoteConnectionDescriptor",
  506: "unable to satisfy both LocalConnectionOptions and RemoteConnectionDescriptor",
  507: "unsupported functionality",
  508: "unknown or unsupported quarantine handling",
  509: "error in RemoteConnectionDescriptor",
  510: "some unspecified protocol error was detected",
  511: "unrecognized extension",
  512: "the gateway is not equipped to detect one of the requested events",
  513: "the gateway is not equipped to generate one of the requested signals",
  514: "the gateway cannot send the specified announcement",
  515: "incorrect connection-id",
  516: "unknown or incorrect call-id",
  517: "unsupported mode",
  518: "unsupported or unknown package",
  519: "the endpoint does not have a digit map",
  520: "the endpoint is restarting",
  521: "the endpoint is redirected to another call agent",
  522: "no such event or signal",
  523: "unknown action or illegal combination of actions",
  524: "internal inconsistency in LocalConnectionOptions",
  525: "unknown extension in LocalConnectionOptions",
  526: "insufficient bandwidth",
  527: "missing RemoteConnectionDescriptor",
  528: "incompatible protocol version",
  529: "internal hardware failure",
  530: "CAS signaling protocol error",
  531: "failure of a grouping of trunks",
  532: "unsupported value in LocalConnectionOptions",
  533: "response too large",
  534: "codec negotiation failure",
  535: "packetization period not supported",
  536: "unknown or unsupported RestartMethod",
  537: "unknown or unsupported digit map extension",
  538: "event or signal parameter error",
  539: "invalid or unsupported command parameter",
  540: "per endpoint connection limit exceeded",
  541: "invalid or unsupported LocalConnectionOptions",
};

// What a code says: one that isn't in the table is taken as the first of its kind (RFC 3435, 2.4), and 800 to 899 are a package's own.
function reasonOf(code) {
  if (code >= 800 && code <= 899) {
    return "a code of a package";
  }
  return REASONS[code] ?? REASONS[100 * Math.floor(code / 100)] ?? "unknown code";
}

// ---- Calls and connections

// So many calls are remembered.
const MOST_CALLS = 200;

// What the conversation tells of calls and their connections. A page that came later knows of those alone that it has heard of.
class Calls {
  constructor() {
    // By the call's identifier in upper case.
    this.calls = new Map();
    // By the line and the connection's identifier.
    this.connections = new Map();
    // The same, also of those that are no more: of which call each is, and where its media come in.
    this.ends = new Map();
    // By the id of their command: what connection commands ask for.
    this.asked = new Map();
  }

  // The call that a command is of: it names it, or a connection of it.
  callOf(message) {
    const named = message.call || this.connections.get(`${message.line} ${message.connection}`)?.call.name || "";
    return named === "" ? null : this.named(named);
  }

  named(name) {
    const key = name.toUpperCase();
    let call = this.calls.get(key);
    if (!call) {
      call = { key, name, lines: new Set(), periods: new Set() };
      this.calls.set(key, call);
      forget(this.calls, MOST_CALLS);
    }
    return call;
  }

  // Whether a line has a connection.
  isAt(line) {
    for (const held of this.connections.values()) {
      if (held.line === line) {
        return true;
      }
    }
    return false;
  }

  // The call agent asks for something.
  ask(message) {
    if (["CRCX", "MDCX", "DLCX"].includes(message.verb)) {
      this.asked.set(message.id, message);
      forget(this.asked, 1000);
    }
  }

  // The gateway has answered: what was asked for has become so, or hasn't.
  answer(message) {
    const asked = this.asked.get(message.id);
    if (!asked || message.code < 200) {
      return;
    }
    this.asked.delete(message.id);
    if (message.code >= 300) {
      return;
    }
    if (asked.verb === "DLCX") {
      this.end(asked);
    } else {
      this.take(asked, message);
    }
  }

  // A connection was made or changed.
  take(asked, answer) {
    const line = answer.named || asked.line;
    const key = `${line} ${answer.connection || asked.connection}`;
    const held = this.connections.get(key) ?? { line, call: this.callOf(asked) };
    if (!held.call) {
      return;
    }
    held.call.lines.add(line);
    this.connections.set(key, held);
    forget(this.connections, 1000);
    this.ends.set(key, { call: held.call, local: answer.description?.address || this.ends.get(key)?.local || "" });
    forget(this.ends, 1000);
  }

  // Connections were deleted: one, those of a call on a line, or all of a line or of the gateway.
  end(asked) {
    for (const [key, held] of this.connections) {
      const isThere = asked.line === 0 || asked.line === held.line;
      const isMeant = asked.connection === "" || key === `${held.line} ${asked.connection}`;
      const isCalled = asked.call === "" || asked.call.toUpperCase() === held.call.key;
      if (isThere && isMeant && isCalled) {
        this.connections.delete(key);
      }
    }
  }
}

// A connection in words, as the gateway has it.
function connectionText(held) {
  const connection = held.number.toString(16).toUpperCase();
  const remote = held.remote === "" ? ", no remote address yet" : ` to ${held.remote}`;
  return `connection ${connection} ${held.mode}, call ${held.call}, ${held.codec} ${held.ptime} ms${remote}`;
}

// Whether a row belongs to a call: it is of the call, or of none and in a busy period of a line that the call has.
function isOfCall(row, call) {
  return row.call ? row.call === call : call.periods.has(row.period);
}

// ---- Busy periods of lines

// So long after a line was busy last the request that ends its period may come, in ms: for as long a command is sent again (RFC 3435, 3.5.1).
const REQUEST_TIME = 30000;

// A line is busy from when it is lifted, rung or asked for a connection until it is on hook without a connection and its next lifting is
// requested. What happens at it meanwhile is of one period.
class BusyPeriods {
  constructor(calls) {
    this.calls = calls;
    this.lines = new Map();
  }

  of(line) {
    let state = this.lines.get(line);
    if (!state) {
      state = { line, hook: null, isWatched: false, isRung: false, isRequested: false, busyAt: null, period: null, last: null };
      this.lines.set(line, state);
    }
    return state;
  }

  isAtRest(state) {
    return state.hook !== "off" && !state.isRung && !this.calls.isAt(state.line);
  }

  // The period in which something happens at a line, or null.
  at(line, at) {
    if (line === 0) {
      return null;
    }
    const state = this.of(line);
    if (!this.isAtRest(state)) {
      state.busyAt = at;
      state.period ??= { line };
    } else if (state.isRequested || at - state.busyAt > REQUEST_TIME) {
      state.period = null;
    }
    state.last = state.period ?? state.last;
    return state.period;
  }

  // A line leaves rest; one that is busy is in its period already.
  begin(line, at) {
    const state = this.of(line);
    if (this.isAtRest(state)) {
      Object.assign(state, { period: { line }, busyAt: at, isRequested: false });
    }
    return state;
  }

  // A handset is lifted or hung up, where the word says so.
  move(line, word, at) {
    if (word === "off") {
      Object.assign(this.begin(line, at), { hook: "off", isRung: false });
    }
    const period = this.at(line, at);
    if (word === "on") {
      Object.assign(this.of(line), { hook: "on", isRequested: false });
    }
    return period;
  }

  // Something was done at a telephone.
  act(line, word, at) {
    if (line === 0) {
      return null;
    }
    this.of(line).isWatched = true;
    return this.move(line, word, at);
  }

  // The call agent asks for something.
  ask(message, at) {
    const { line } = message;
    if (line === 0) {
      return null;
    }
    if (message.verb === "CRCX" || (message.isRequest && message.rings)) {
      this.begin(line, at);
    }
    const state = this.of(line);
    const period = this.at(line, at);
    if (message.isRequest) {
      Object.assign(state, { isRung: message.rings && state.hook !== "off", isRequested: message.asksForLifting });
    }
    return period;
  }

  // The gateway tells what it observed, at once or when that is requested. A page that came later may have seen no act.
  tell(message, at) {
    const { line, observed } = message;
    const hook = /\bhu\b/i.test(observed) ? "on" : /\bh[df]\b|\bD\//i.test(observed) ? "off" : "";
    const period = line === 0 || this.of(line).isWatched ? this.at(line, at) : this.move(line, hook, at);
    return hook === "on" ? period ?? this.of(line).last : period;
  }
}

// ---- What is shown

// The lines and the call that are shown; null is all of them.
const view = { lines: null, call: null };

// Whether a row is shown. What is of no line is shown for all lines.
function isWanted(row) {
  const isOfLines = view.lines === null || row.line === 0 || view.lines.has(row.line);
  return isOfLines && (view.call === null || isOfCall(row, view.call));
}

// What a call is called in a list.
function callText(call) {
  const lines = [...call.lines].sort((a, b) => a - b);
  return lines.length > 0 ? `${call.name}, ${lines.map(nameOf).join(", ")}` : call.name;
}

// Lists these calls, the latest first.
function listCalls(known) {
  const shown = byId("shown-call");
  const calls = [...known.calls.values()].reverse();
  const texts = calls.map(callText);
  const wanted = texts.join("\n");
  if (shown.dataset.calls === wanted) {
    return;
  }
  shown.dataset.calls = wanted;
  const options = calls.map((call, place) => make("option", { value: call.key }, texts[place]));
  shown.replaceChildren(make("option", { value: "" }, "all calls"), ...options);
  if (view.call && !calls.includes(view.call)) {
    shown.append(make("option", { value: view.call.key }, callText(view.call)));
  }
  shown.value = view.call?.key ?? "";
}

// Shows the rows of a call, or of all calls.
function showCall(call) {
  view.call = call;
  byId("shown-call").value = call?.key ?? "";
  ladder.settleAll();
  heard.show();
}

// Shows the telephones and the rows of the lines that are searched for.
function showLines() {
  view.lines = linesOf(byId("wanted-lines").value);
  telephones.settle();
  ladder.settleAll();
}

// ---- The message that is shown

function showMessage(row) {
  setText(byId("message-title"), row.look().title);
  setText(byId("message-text"), row.text);
  const call = byId("message-call");
  call.hidden = !row.call;
  call.title = row.call ? `Call ${row.call.name}` : "";
  byId("message").hidden = false;
}

function hideMessage() {
  byId("message").hidden = true;
}

// ---- What was heard

// So many ends of a call have a bar of their own beside the ladder.
const MOST_BARS = 2;

// What a report of voice/voice tells of connections: from when to when something was heard there.
const heard = {
  name: "",
  connections: [],
  // The ends of the chosen call.
  ends: [],

  // Takes a report, or none where the text isn't one.
  take(name, text) {
    this.name = name;
    try {
      this.connections = JSON.parse(text).connections.filter((it) => Array.isArray(it.heard) && Array.isArray(it.stood));
    } catch {
      this.connections = [];
    }
    this.show();
  },

  // The connections of a call here, by its messages: a line's, whose media come in where the gateway said.
  ofCall(call) {
    return this.connections.filter((it) => {
      const end = ladder.calls.ends.get(`${it.line} ${it.connection}`);
      return end?.call === call && end.local === it.local;
    });
  },

  // The connection to which this one's media go and from which its own come, at the same time.
  otherOf(one) {
    return this.connections.find((it) => it !== one && isAtOnce(it, one)
      && it.stood.some((stood) => stood.remote === one.local) && one.stood.some((stood) => stood.remote === it.local));
  },

  // The ends of a call: what each is called, and what it heard, by the clock of this gateway.
  endsOf(call) {
    const own = this.ofCall(call);
    const ends = [];
    for (const one of own) {
      const other = this.otherOf(one);
      const names = [`line ${one.line}`, other ? `${own.includes(other) ? "line " : `${other.gateway}:`}${other.line}` : "anybody"];
      ends.push({ text: `${names[0]} heard ${names[1]}`, spans: one.heard });
      if (other && !own.includes(other)) {
        const shift = other.zero - one.zero;
        const spans = other.heard.map((it) => ({ from: it.from + shift, to: it.to + shift }));
        ends.push({ text: `${names[1]} heard ${names[0]}`, spans });
      }
    }
    return ends;
  },

  // Shows what the ends of the chosen call heard, above the ladder with its moments, and beside it.
  show() {
    const box = byId("heard");
    const ends = view.call ? this.endsOf(view.call) : [];
    this.ends = ends;
    box.hidden = this.name === "";
    const told = `${this.name}: ${counted(this.connections.length, "connection")}`;
    const hint = view.call ? `${this.name} tells nothing of this call` : `${told}; choose a call`;
    box.replaceChildren(...(ends.length > 0 ? ends.map(drawEnd) : [make("p", { class: "hint" }, hint)]));
    ladder.pane.drawn.forEach((row) => markRow(row, ends));
  },
};

// Whether two connections of a report were there at one time.
function isAtOnce(one, other) {
  const end = (it) => (it.ended === null ? Infinity : it.zero + it.ended);
  return one.zero + one.begun <= end(other) && other.zero + other.begun <= end(one);
}

// A line of what an end heard, from when to when.
function drawEnd(end, place) {
  const times = end.spans.map((it) => `${clockText(it.from)} to ${clockText(it.to)}`).join(", ");
  return make("p", { class: `end bar-${place + 1}` }, make("span", { class: "bar" }), `${end.text}: ${times || "nothing"}`);
}

// A row has a bar beside it for each end that heard something then.
function markRow(row, ends) {
  for (let place = 0; place < MOST_BARS; place += 1) {
    const spans = Number.isFinite(row.at) ? ends[place]?.spans ?? [] : [];
    row.button?.classList.toggle(`heard-${place + 1}`, spans.some((it) => it.from <= row.at && row.at <= it.to));
  }
}

async function openReport(file) {
  heard.take(file.name, await file.text());
}

// ---- The rows that are drawn

// So many rows are drawn at most, of those that are wanted: the latest, or those around what the reader looks at.
const MOST_DRAWN = 200;
// So close to the end of its list, in pixels, a reader is at the end.
const NEAR_END = 80;

// What an arrow says: of its head the id alone may be cut.
function drawLabel(head) {
  const [word, id, name] = head;
  const label = make("span", { class: "label" }, make("span", { class: "word" }, word));
  if (id !== "") {
    label.append(" ", make("span", { class: "id", title: id }, id));
  }
  if (name !== "") {
    label.append(" ", make("span", { class: "name" }, name));
  }
  return label;
}

// The arrow between two lanes, with what it says above it.
function drawTrack(row, { head, reason, more }) {
  const [left, right] = row.from < row.to ? [row.from, row.to] : [row.to, row.from];
  const arrow = make("span", { class: `arrow ${row.from < row.to ? "right" : "left"}` });
  const said = make("span", { class: "said" }, drawLabel(head));
  for (const [name, text] of [["reason", reason], ["more", more]]) {
    if (text) {
      said.append(make("span", { class: name, title: text }, text));
    }
  }
  const track = make("span", { class: `track ${row.kind}` }, said, arrow);
  track.style.setProperty("--left", String(2 * left));
  track.style.setProperty("--right", String(2 * right));
  return track;
}

// A row has a mark at its head.
function drawMark(row, { name, text }) {
  row.track.classList.add(name);
  row.track.querySelector(".label").append(" ", make("span", { class: "badge" }, text));
}

// Draws a row with an arrow between two lanes, or a hint.
function drawRow(row) {
  if (row.hint) {
    row.item = make("li", {}, make("p", { class: "hint" }, row.hint));
    return;
  }
  row.track = drawTrack(row, row.look());
  const at = make("span", { class: "at" }, make("span", {}, clockText(row.at)));
  if (row.wall !== null) {
    at.append(make("span", { class: "wall", title: "The time of day, UTC, by this browser's clock" }, wallText(row.wall)));
  }
  row.button = make("button", { type: "button", class: "row", "aria-pressed": String(row === ladder.chosen) }, at, row.track);
  row.button.addEventListener("click", () => ladder.choose(row));
  row.item = make("li", {}, row.button);
  row.marks.forEach((mark) => drawMark(row, mark));
  markRow(row, heard.ends);
}

// A row isn't drawn any more.
function dropRow(row) {
  row.item.remove();
  Object.assign(row, { item: null, button: null, track: null });
}

// A part of the wanted rows, which moves with the reader.
class Pane {
  constructor(list) {
    this.list = list;
    // Whatever makes it smaller or wider, its end stays in sight.
    new ResizeObserver(() => this.keepEnd()).observe(list);
    list.addEventListener("scroll", () => this.scrolled());
    this.drawn = [];
    this.show([]);
  }

  // These rows are wanted, and no others.
  show(rows) {
    this.wanted = rows;
    // Whether the reader looks at a row far from the end.
    this.isLeft = false;
    this.drawFrom(this.isFollowing ? Math.max(0, rows.length - MOST_DRAWN) : 0);
    this.keepEnd();
  }

  get to() {
    return this.from + this.drawn.length;
  }

  get isFollowing() {
    return !this.isLeft && byId("following").checked;
  }

  // Draws the rows from this one on; a row that was drawn before stays where it is seen.
  drawFrom(from, anchor = null) {
    const gap = anchor ? anchor.item.offsetTop - this.list.scrollTop : 0;
    const focused = document.activeElement;
    const part = new Set(this.wanted.slice(from, from + MOST_DRAWN));
    this.drawn.filter((row) => !part.has(row)).forEach(dropRow);
    this.from = from;
    this.drawn = [...part];
    this.drawn.filter((row) => !row.item).forEach(drawRow);
    this.list.replaceChildren(...this.drawn.map((row) => row.item));
    if (anchor) {
      this.list.scrollTop = anchor.item.offsetTop - gap;
    }
    if (this.list.contains(focused)) {
      focused.focus({ preventScroll: true });
    }
  }

  // Rows have come behind the others: they are drawn where there is room, or where the reader follows.
  extend() {
    const end = this.wanted.length;
    if (this.isFollowing && end - this.to > MOST_DRAWN) {
      this.drawFrom(end - MOST_DRAWN);
    }
    const last = this.isFollowing ? end : Math.min(end, this.from + MOST_DRAWN);
    const added = this.wanted.slice(this.to, last);
    added.forEach(drawRow);
    this.list.append(...added.map((row) => row.item));
    this.drawn.push(...added);
    const surplus = this.drawn.splice(0, Math.max(0, this.drawn.length - MOST_DRAWN));
    surplus.forEach(dropRow);
    this.from += surplus.length;
    this.keepEnd();
    this.scrolled();
  }

  // The oldest of the remembered rows isn't remembered any more.
  forget(row) {
    if (this.wanted[0] !== row) {
      return;
    }
    this.wanted.shift();
    if (this.from > 0) {
      this.from -= 1;
    } else if (this.drawn.length > 0) {
      dropRow(this.drawn.shift());
    }
  }

  // Goes to the end if the reader follows.
  toEnd() {
    this.isLeft = false;
    this.extend();
  }

  // Stays at the end if the reader follows.
  keepEnd() {
    if (this.isFollowing) {
      this.list.scrollTop = this.list.scrollHeight;
    }
  }

  // How far the reader is from the end of the list, in pixels.
  get rest() {
    return this.list.scrollHeight - this.list.scrollTop - this.list.clientHeight;
  }

  // The reader looks at a row, which stays in sight.
  look(row) {
    this.isLeft = this.to < this.wanted.length || this.rest > NEAR_END;
    if (this.isLeft) {
      row.item.scrollIntoView({ block: "nearest" });
    }
  }

  // Where the reader comes to an end of what is drawn, rows beyond it are drawn in place of some at the other end.
  scrolled() {
    const { scrollTop, clientHeight } = this.list;
    const most = Math.max(0, this.wanted.length - MOST_DRAWN);
    const step = scrollTop < clientHeight ? -MOST_DRAWN / 2 : this.rest < clientHeight ? MOST_DRAWN / 2 : 0;
    const from = Math.max(0, Math.min(this.from + step, most));
    if (from !== this.from) {
      const anchor = this.drawn.find((row) => row.item.offsetTop + row.item.offsetHeight > scrollTop);
      this.drawFrom(from, anchor);
    }
  }
}

// ---- The ladder

// What a message is stands in its label: the gateway's (`said` of /events), or where a file is drawn that of `FileLabels`. Its text says
// what it is called, its return code, and which call it is of; nothing else is read off it here.
const COMMANDS = ["new", "repeat", "confirmed", "lost", "command", "resent"];
const RESPONSES = ["response", "answer", "again", "acknowledgement"];
// Of a response that comes the gateway doesn't know whether it came before.
const SAID_BEFORE = ["repeat", "confirmed", "again", "resent"];
// Nothing is told of a message without a label: its datagram is too long, 64 stand before it there, or memory was refused for that.
const UNTOLD = { what: "", line: null, id: null, code: null, send: null };
// So many rows are remembered of a gateway, and of a file.
const MOST_HEARD = 20000;
const MOST_READ = 1000000;

// Draws what happened, and marks what is said again and what is given up.
class Ladder {
  constructor() {
    this.pane = new Pane(byId("ladder"));
    this.clear();
  }

  // Nothing has happened yet; so many rows are remembered.
  clear(most = MOST_HEARD) {
    this.pane.show([]);
    this.peers = [];
    this.most = most;
    this.rows = [];
    // Whether rows that were passed over are wanted now.
    this.isStale = false;
    // The gateway's, once a command of its own names it, or one that it has executed.
    this.domain = "";
    this.calls = new Calls();
    this.periods = new BusyPeriods(this.calls);
    // Commands that nobody has answered yet, by direction and id: their rows.
    this.open = new Map();
    // Those that were answered, with their first rows.
    this.answered = new Map();
    this.chosen = null;
    this.lastAct = null;
    view.call = null;
    listCalls(this.calls);
    this.setLanes();
    hideMessage();
  }

  setLanes() {
    const names = make("div", { class: "lane-names" }, make("span", {}, "telephones"), make("span", {}, "gateway"));
    const peers = this.peers.length > 0 ? this.peers : ["call agent"];
    for (const peer of peers) {
      names.append(make("span", { title: peer }, peer));
    }
    byId("lanes").replaceChildren(names);
    this.pane.list.style.setProperty("--lanes", String(2 + peers.length));
  }

  // The lane of an address: the first has number 3.
  laneOf(peer) {
    let place = this.peers.indexOf(peer);
    if (place < 0) {
      this.peers.push(peer);
      place = this.peers.length - 1;
      this.setLanes();
    }
    return 3 + place;
  }

  // ---- Rows

  // Remembers a row with an arrow between two lanes.
  addRow(told) {
    const row = { call: null, period: null, marks: [], item: null, ...told };
    this.rows.push(row);
    return row;
  }

  // A row is as it stays: it is drawn with the next ones if it is wanted, and the oldest of too many isn't remembered any more.
  keep(row) {
    if (isWanted(row)) {
      this.pane.wanted.push(row);
    }
    if (this.rows.length > this.most) {
      this.pane.forget(this.rows.shift());
    }
  }

  choose(row) {
    this.chosen?.button?.setAttribute("aria-pressed", "false");
    this.chosen = row;
    row.button.setAttribute("aria-pressed", "true");
    this.pane.look(row);
    showMessage(row);
    this.pane.keepEnd();
  }

  // What stands in a row is true of this line, of this call, and of this busy period.
  settle(row, line, call, period) {
    Object.assign(row, { line, call, period });
    if (call && line > 0) {
      call.lines.add(line);
    }
    if (call && period && !call.periods.has(period)) {
      call.periods.add(period);
      this.isStale ||= call === view.call;
    }
  }

  // Shows the rows that are wanted now, and no others.
  settleAll() {
    this.isStale = false;
    this.pane.show(this.rows.filter(isWanted));
  }

  // Draws what has come.
  draw() {
    if (this.isStale) {
      this.settleAll();
    }
    this.pane.extend();
  }

  mark(row, name, text) {
    if (row.marks.some((mark) => mark.name === name)) {
      return;
    }
    row.marks.push({ name, text });
    if (row.item) {
      drawMark(row, { name, text });
    }
  }

  // ---- What belongs together

  // Commands were given up.
  addGivenUp(happened) {
    for (const label of happened.said ?? []) {
      const key = `out ${label.id}`;
      this.open.get(key)?.forEach((row) => this.mark(row, "given-up", "given up"));
      this.open.delete(key);
    }
  }

  addCommand(row, message, direction, label) {
    const line = label.line ?? message.line;
    const call = this.calls.callOf(message);
    row.domain = message.domain;
    if (label.what === "lost") {
      this.mark(row, "given-up", "lost");
    }
    const key = `${direction} ${label.id}`;
    if (SAID_BEFORE.includes(label.what)) {
      this.mark(row, "again", label.send ? `send ${label.send}` : "repeat");
      const open = this.open.get(key);
      open?.push(row);
      // A page that came later hears the repeat first.
      const first = open?.[0] ?? this.answered.get(key);
      if (first) {
        this.settle(row, line, call, first.period);
        return;
      }
    }
    if (direction === "in") {
      this.calls.ask(message);
      this.settle(row, line, call, this.periods.ask(message, row.at));
    } else {
      this.domain ||= row.domain;
      this.settle(row, line, call, this.periods.tell(message, row.at));
    }
    this.open.set(key, [row]);
    forget(this.open, 1000);
  }

  addResponse(row, message, direction, label) {
    if (direction === "out") {
      this.calls.answer(message);
    }
    const key = `${direction === "out" ? "in" : "out"} ${label.id}`;
    if (SAID_BEFORE.includes(label.what)) {
      this.mark(row, "again", "repeat");
    }
    const asked = this.open.get(key)?.[0] ?? this.answered.get(key);
    if (!asked) {
      const line = label.line ?? row.line;
      this.settle(row, line, null, this.periods.at(line, row.at));
      return;
    }
    if (message.code >= 200 && this.open.delete(key)) {
      this.answered.set(key, asked);
      forget(this.answered, 5000);
    }
    if (direction === "out" && message.code >= 200 && message.code < 300) {
      this.domain ||= asked.domain;
    }
    const line = message.named || asked.line;
    this.settle(row, line, asked.call, asked.period ?? this.periods.at(line, row.at));
  }

  // ---- What happened

  // A datagram that came to the gateway or went out.
  addDatagram(happened) {
    const direction = happened.kind;
    const lane = this.laneOf(happened.peer);
    const texts = messagesOf(happened.text);
    const way = direction === "in" ? `from ${happened.peer}` : `to ${happened.peer}`;
    texts.forEach((text, place) => {
      const label = happened.said?.[place] ?? UNTOLD;
      const kind = kindOf(label);
      const message = readAs(kind, text);
      const part = texts.length > 1 ? `, ${place + 1} of ${texts.length} in its datagram` : "";
      const row = this.addRow({
        happened, at: happened.at, wall: happened.wall, peer: happened.peer, text,
        kind: kind === "response" && message.code >= 400 ? "fault" : kind,
        from: direction === "in" ? lane : 2,
        to: direction === "in" ? 2 : lane,
        line: message.line,
        look: () => lookOf(text, kind, `${way}${whenText(happened)}${part}`),
      });
      if (kind === "command") {
        this.addCommand(row, message, direction, label);
      } else if (kind === "response") {
        this.addResponse(row, message, direction, label);
      } else {
        this.settle(row, message.line, this.calls.callOf(message), this.periods.at(message.line, row.at));
      }
      this.keep(row);
    });
  }

  // Something was done at a telephone.
  addAct(happened) {
    const found = /^\s*phone\s+(\d+)\s+(\S+)/.exec(happened.text);
    const line = found ? Number(found[1]) : 0;
    const words = { off: "lifted", on: "hung up", flash: "flash" };
    const text = happened.text.trim();
    const label = found ? `${nameOf(line)}: ${words[found[2]] ?? `key ${found[2]}`}` : text;
    this.lastAct = this.addRow({
      happened, at: happened.at, wall: happened.wall, peer: "", kind: "act", from: 1, to: 2, line, text,
      period: this.periods.act(line, found?.[2], happened.at),
      look: () => ({ head: [label, "", ""], title: `at a telephone${whenText(happened)}` }),
    });
    this.keep(this.lastAct);
  }

  // What was told to a telephone, or of a line.
  addTold(happened) {
    const text = happened.text.trim();
    if (text === "done" || text === "") {
      return;
    }
    const of = /^line (\d+) /.exec(text);
    const line = of ? Number(of[1]) : this.lastAct?.line ?? 0;
    this.keep(this.addRow({
      happened, at: happened.at, wall: happened.wall, peer: "", kind: text.startsWith("!") ? "fault" : "act", from: 2, to: 1,
      line, text, period: this.periods.at(line, happened.at),
      look: () => ({ head: [text.slice(0, 80), "", ""], title: `told to the telephones${whenText(happened)}` }),
    }));
  }

  // Events that this page has missed.
  addGap(count) {
    const hint = `${counted(count, "event")} ${count === 1 ? "is" : "are"} no longer known`;
    this.keep(this.addRow({ hint, line: 0 }));
  }

  add(happened) {
    if (happened.kind === "in" || happened.kind === "out") {
      this.addDatagram(happened);
    } else if (happened.kind === "act") {
      this.addAct(happened);
    } else if (happened.kind === "given up") {
      this.addGivenUp(happened);
    } else {
      this.addTold(happened);
    }
  }

  // Adds these, each by what takes it, and goes to the end if the reader follows.
  addAll(list, take) {
    if (list.length === 0) {
      return;
    }
    list.forEach(take);
    listCalls(this.calls);
    this.pane.isLeft = false;
    this.draw();
  }
}

// What a message is, by its label.
function kindOf(label) {
  if (COMMANDS.includes(label.what)) {
    return "command";
  }
  if (RESPONSES.includes(label.what)) {
    return "response";
  }
  return label.what === "unreadable" ? "fault" : "untold";
}

// A text as what its label says that it is.
function readAs(kind, text) {
  return kind === "fault" ? readLine(text, "not MGCP: ") : readMessage(text);
}

// How a message looks: its head, what stands below it, and what is said of it where its whole text is shown.
function lookOf(text, kind, way) {
  const { head, reason, more } = readAs(kind, text);
  return { head, reason, more, title: `${way}${reason ? `: ${reason}` : ""}` };
}

// When something happened, by the gateway's clock and by the time of day.
function whenText(happened) {
  const wall = happened.wall === null ? "" : `, ${wallText(happened.wall)}`;
  return happened.at === null ? "" : ` at ${clockText(happened.at)}${wall}`;
}

// ---- What a file's messages are

// What is said again under an id within this time is a repeat, in ms (RFC 3435, 3.5.1).
const REPEAT_TIME = 30000;

// A trace, a script, and what `rgw simulate` printed don't tell what their messages are, as a gateway does. Of files alone that is read off
// the messages, in the gateway's words, and also whether a response comes again.
class FileLabels {
  constructor() {
    // By direction, peer and head: when it was first said.
    this.first = new Map();
    // The gateway's own commands that nobody has answered yet: the endpoint of each, by its id.
    this.open = new Map();
    // Those of them that it has given up since that was taken.
    this.givenUp = [];
  }

  // Whether this was said before, less than half a minute ago.
  isAgain(key, at) {
    const first = this.first.get(key);
    if (first !== undefined && (at === null || at - first < REPEAT_TIME)) {
      return true;
    }
    this.first.set(key, at ?? 0);
    forget(this.first, 5000);
    return false;
  }

  // A line that has lost its agent, or a gateway that announces itself anew, has given up what it asked before.
  giveUp(announcement) {
    for (const [id, endpoint] of this.open) {
      if (endpoint === announcement.endpoint && id !== announcement.id) {
        this.givenUp.push(labelOf("given up", id));
        this.open.delete(id);
      }
    }
  }

  // A command of the gateway's own.
  ofOwn(message, at) {
    // It may send a repeat to another address of its agent.
    if (this.isAgain(`out ${message.verb} ${message.id}`, at)) {
      return labelOf("resent", message.id);
    }
    if (message.verb === "RSIP") {
      this.giveUp(message);
    }
    this.open.set(message.id, message.endpoint);
    forget(this.open, 1000);
    return labelOf("command", message.id);
  }

  ofCommand(direction, peer, message, at) {
    if (direction === "out") {
      return this.ofOwn(message, at);
    }
    return labelOf(this.isAgain(`in ${peer} ${message.verb} ${message.id}`, at) ? "repeat" : "new", message.id);
  }

  ofResponse(direction, peer, message, at) {
    if (this.isAgain(`${direction} ${peer} ${message.code} ${message.id}`, at)) {
      return labelOf("again", message.id);
    }
    if (direction === "out") {
      return labelOf(message.code === 0 ? "acknowledgement" : "answer", message.id);
    }
    if (message.code >= 200) {
      this.open.delete(message.id);
    }
    return labelOf("response", message.id);
  }

  ofText(direction, peer, text, at) {
    const message = readMessage(text);
    if (message.is === "command") {
      return this.ofCommand(direction, peer, message, at);
    }
    return message.is === "response" ? this.ofResponse(direction, peer, message, at) : labelOf("unreadable", null);
  }

  // What the messages of a datagram are that came or was sent.
  ofDatagram(direction, peer, text, at) {
    return messagesOf(text).map((message) => this.ofText(direction, peer, message, at));
  }

  // What was given up since this was called last.
  takeGivenUp() {
    return this.givenUp.splice(0);
  }
}

// A label in the gateway's form: a file tells no more of a message.
function labelOf(what, id) {
  return { what, line: null, id, code: null, send: null };
}

// ---- Traces and outputs of scripts

// So many lines of a file are read between two looks at the clock.
const MOST_LINES_READ = 200;

// The lines of a file, some at a time, in steps.
async function* linesOfFile(file) {
  const reader = file.stream().pipeThrough(new TextDecoderStream()).getReader();
  let last = "";
  for (let read = await reader.read(); !read.done; read = await reader.read()) {
    const lines = (last + read.value).split(/\r\n|\n/);
    last = lines.pop();
    for (let place = 0; place < lines.length; place += MOST_LINES_READ) {
      yield lines.slice(place, place + MOST_LINES_READ);
      await rest();
    }
  }
  yield [last];
}

// The domain that a file's configuration has, which is before a line `%%`; null where it has none.
async function configuredDomain(file) {
  let domain = "";
  for await (const lines of linesOfFile(file)) {
    for (const line of lines) {
      if (line.trim() === "%%") {
        return domain;
      }
      domain ||= /^\s*domain\s*=\s*"([^"]+)"/.exec(line)?.[1] ?? "";
    }
  }
  return null;
}

// Reads a trace of rgwd, a script, or what rgw simulate printed, into what happened.
class Recording {
  constructor(hasConfiguration) {
    this.happened = [];
    this.labels = new FileLabels();
    this.isScript = hasConfiguration;
    // Whether what happened begins behind a line that hasn't come yet.
    this.isHead = hasConfiguration;
    this.at = hasConfiguration ? 0 : null;
    this.inside = null;
  }

  // What happened since this was called last.
  take() {
    return this.happened.splice(0);
  }

  put(kind, peer, text, at = this.at, hex = null) {
    const isDatagram = kind === "in" || kind === "out";
    const said = isDatagram ? this.labels.ofDatagram(kind, peer, text, at) : [];
    this.happened.push({ kind, peer, text, at, hex, said, wall: null });
    const givenUp = this.labels.takeGivenUp();
    if (givenUp.length > 0) {
      this.happened.push({ kind: "given up", peer: "", text: "", at, hex: null, said: givenUp, wall: null });
    }
  }

  // A line, of a script or of what was printed.
  read(line) {
    const isPrinted = line.startsWith("| ");
    const said = isPrinted ? line.slice(2) : line;
    if (this.isHead) {
      this.isHead = line.trim() !== "%%";
    } else if (this.inside) {
      this.readInside(said);
    } else if (isPrinted || !this.isScript) {
      this.readPrinted(said);
    } else {
      this.readStep(said.trim());
    }
  }

  // A line of a datagram, or its end.
  readInside(line) {
    if (line.trim() === "--") {
      this.put(this.inside.kind, this.inside.peer, this.inside.lines.join("\n"), this.inside.at);
      this.inside = null;
    } else {
      this.inside.lines.push(line);
    }
  }

  begin(kind, peer, at) {
    this.inside = { kind, peer, at, lines: [] };
  }

  readPrinted(line) {
    const sent = /^> (?:(\d+) )?(\S+)$/.exec(line.trim());
    if (sent) {
      this.begin("out", sent[2], sent[1] === undefined ? this.at : Number(sent[1]));
    } else if (/^(! \d|line )/.test(line)) {
      // (`! not sent 1` and `! lost on its way 1` are marks of the trace's own)
      this.put("told", "", line);
    }
  }

  readStep(line) {
    const [word, first, second] = line.split(/\s+/);
    if (word === "from") {
      this.begin("in", first ?? "", this.at);
    } else if (word === "raw") {
      this.put("in", first ?? "", textOfHex(second ?? ""), this.at, second ?? "");
    } else if (word === "phone") {
      this.put("act", "", line);
    } else if (word === "at") {
      this.at = Number(first);
    } else if (word === "tick" || word === "wait") {
      this.at += Number(first);
    }
  }
}

// ---- What is shown, as a trace

// The lines that tell of something that happened.
function traceLines(happened) {
  const lines = happened.text.split(/\r\n|\n/).map((line) => line.trim());
  while (lines.length > 1 && lines[lines.length - 1] === "") {
    lines.pop();
  }
  if (happened.kind === "in") {
    const hex = happened.hex ?? hexOfText(lines.map((line) => `${line}\r\n`).join(""));
    return hex === "" ? [`from ${happened.peer}`, "--"] : [`raw ${happened.peer} ${hex}`];
  }
  if (happened.kind === "out") {
    return [`| > ${happened.peer}`, ...lines.map((line) => `| ${line}`), "| --"];
  }
  return lines.map((line) => (happened.kind === "act" ? line : `| ${line}`));
}

// The trace of what happened, made in steps. It has no configuration, so it can be drawn, but not replayed.
async function traceOf(list, told) {
  const lines = [`# ${told}`, "%%"];
  let at = 0;
  for (const happened of list) {
    if (happened.at !== null && happened.at !== at) {
      at = happened.at;
      lines.push(`at ${at}`);
    }
    lines.push(...traceLines(happened));
    await rest();
  }
  return `${lines.join("\n")}\n`;
}

// Saves what the ladder shows as a file: whole datagrams, of which a message is shown.
async function saveShown() {
  const shown = new Set(ladder.pane.wanted.filter((row) => row.happened).map((row) => row.happened));
  const time = new Date().toISOString().slice(0, 19);
  const parts = [view.call ? `call ${view.call.name}` : "", view.lines ? `lines ${[...view.lines].join(", ")}` : ""];
  const text = await traceOf(shown, `${["shown by the page of rgwd", ...parts.filter((part) => part !== "")].join(", ")}, ${time}Z`);
  const address = URL.createObjectURL(new Blob([text], { type: "text/plain" }));
  const link = make("a", { href: address, download: `rgwd_${time.replaceAll(":", "-")}Z.trace` });
  link.click();
  setTimeout(() => URL.revokeObjectURL(address), 10000);
}

// ---- Tones

// The tones of a lifted handset in the United States (ITU-T E.180, Supplement 2; that of confirmation by RFC 3660, 2.1): their
// frequencies in Hz, their seconds of sound and of silence, and how often they come, where they end by themselves.
const TONES = {
  "L/dl": { hertz: [350, 440], sound: 1, silence: 0 },
  "L/bz": { hertz: [480, 620], sound: 0.5, silence: 0.5 },
  "L/ro": { hertz: [480, 620], sound: 0.25, silence: 0.25 },
  "G/cg": { hertz: [480, 620], sound: 0.25, silence: 0.25 },
  "G/rt": { hertz: [440, 480], sound: 2, silence: 4 },
  "G/cf": { hertz: [350, 440], sound: 0.1, silence: 0.1, times: 3 },
};
// How loud each frequency is, of 1.
const LOUD = 0.1;
// A sound begins and ends within so many seconds, so that it doesn't click.
const EDGE = 0.004;

// How loud a sound of so many seconds is at a moment of it, of 1.
function edgeAt(tone, moment) {
  if (tone.silence === 0) {
    return 1;
  }
  return Math.max(0, Math.min(1, moment / EDGE, (tone.sound - moment) / EDGE));
}

// Fills samples with one sound and one silence of a tone, as often as it comes.
function fillTone(samples, tone, rate) {
  const period = tone.sound + tone.silence;
  for (let place = 0; place < samples.length; place += 1) {
    const moment = (place / rate) % period;
    const sum = tone.hertz.reduce((all, hertz) => all + Math.sin(2 * Math.PI * hertz * (place / rate)), 0);
    samples[place] = LOUD * sum * edgeAt(tone, moment);
  }
}

// What is heard at the chosen telephone is played, where it was asked for.
const speaker = {
  context: null,
  isOn: false,
  // By the signal's name: what plays it.
  playing: new Map(),

  // Begins to play a tone.
  begin(name) {
    const tone = TONES[name];
    const rate = this.context.sampleRate;
    const buffer = this.context.createBuffer(1, Math.round(rate * (tone.sound + tone.silence) * (tone.times ?? 1)), rate);
    fillTone(buffer.getChannelData(0), tone, rate);
    const source = this.context.createBufferSource();
    source.buffer = buffer;
    source.loop = tone.times === undefined;
    source.connect(this.context.destination);
    source.start();
    this.playing.set(name, source);
  },

  // Plays the tones among these signals, and no others.
  hear(names) {
    const wanted = this.isOn ? names.filter((name) => name in TONES) : [];
    for (const [name, source] of this.playing) {
      if (!wanted.includes(name)) {
        source.stop();
        this.playing.delete(name);
      }
    }
    wanted.filter((name) => !this.playing.has(name)).forEach((name) => this.begin(name));
  },

  // Tones are asked for, or aren't any more.
  turn(isOn) {
    this.isOn = isOn;
    if (isOn) {
      this.context ??= new AudioContext();
      this.context.resume();
    } else {
      this.context?.suspend();
    }
    telephones.sound();
  },
};

// ---- Telephones

const KEYS = ["1", "2", "3", "A", "4", "5", "6", "B", "7", "8", "9", "C", "*", "0", "#", "D"];
const HEARD = {
  "L/dl": "dial tone",
  "L/bz": "busy",
  "L/ro": "reorder tone",
  "L/rg": "rings",
  "L/rs": "ring splash",
  "L/vmwi": "message lamp",
  "G/rt": "ringback",
  "G/cg": "congestion",
  "G/cf": "confirm tone",
};
const RINGING = new Set(["L/rg", "L/rs"]);

class Telephone {
  constructor(line) {
    this.line = line;
    this.hook = "on";
    this.signals = [];
    this.isBusy = false;
    this.name = make("button", { type: "button", class: "phone-name", "aria-expanded": "false" }, nameOf(line));
    this.hookButton = make("button", { type: "button", class: "phone-hook" }, "Lift");
    this.hears = make("p", { class: "hears silent" }, "silent");
    this.carries = make("div", { class: "carries" });
    this.lost = make("p", { class: "lost" });
    this.lost.hidden = true;
    this.refusal = make("p", { class: "refusal" });
    this.refusal.hidden = true;
    this.keys = make("div", { class: "keys", role: "group", "aria-label": `Keys of ${nameOf(line)}` });
    this.keyButtons = KEYS.map((key) => {
      const button = make("button", { type: "button" }, key);
      button.addEventListener("click", () => act(line, key));
      return button;
    });
    this.flash = make("button", { type: "button", class: "flash" }, "Flash");
    this.keys.append(...this.keyButtons, this.flash);
    this.card = make("div", { class: "phone", role: "group", "aria-label": nameOf(line) },
      make("div", { class: "phone-head" }, this.name, this.hookButton),
      this.refusal, this.hears, this.carries, this.lost, this.keys);
    this.card.dataset.line = String(line);
    this.listen();
    this.reach(false);
    this.enable();
  }

  listen() {
    this.name.addEventListener("click", () => this.toggle());
    this.hookButton.addEventListener("click", () => this.pressHook());
    this.flash.addEventListener("click", () => act(this.line, "flash"));
    this.card.addEventListener("focusin", () => telephones.choose(this, false));
    this.card.addEventListener("focusout", () => setTimeout(() => telephones.settle(), 0));
  }

  toggle(open = !this.card.classList.contains("open")) {
    this.card.classList.toggle("open", open);
    this.name.setAttribute("aria-expanded", String(open));
  }

  pressHook() {
    act(this.line, this.hook === "off" ? "on" : "off");
  }

  // Its endpoint's name.
  tellName(domain) {
    const name = domain === "" ? nameOf(this.line) : `${nameOf(this.line)}@${domain}`;
    if (this.name.title !== name) {
      this.name.title = name;
      this.card.setAttribute("aria-label", name);
    }
  }

  // Whether the tabulator key comes to it.
  reach(isReached) {
    const index = isReached ? "0" : "-1";
    for (const button of [this.name, this.hookButton, ...this.keyButtons, this.flash]) {
      button.setAttribute("tabindex", index);
    }
  }

  enable() {
    const isOn = this.hook !== "off";
    for (const button of [...this.keyButtons, this.flash]) {
      button.disabled = isOn;
    }
  }

  // Tells at the telephone itself what was refused there.
  refuse(text) {
    this.refusal.hidden = text === "";
    setText(this.refusal, text);
  }

  show(state) {
    if (this.hook !== state.hook) {
      this.hook = state.hook;
      this.enable();
    }
    const isOff = state.hook === "off";
    this.card.classList.toggle("off", isOff);
    setText(this.hookButton, isOff ? "Hang up" : "Lift");
    this.signals = state.signals.map((signal) => signal.name);
    this.isBusy = isOff || state.signals.length > 0 || state.connections.length > 0;
    const names = this.signals.map((name) => HEARD[name] ?? name);
    this.card.classList.toggle("rings", this.signals.some((name) => RINGING.has(name)));
    this.hears.classList.toggle("silent", names.length === 0);
    setText(this.hears, names.length > 0 ? names.join(", ") : isOff ? "off hook, silent" : "on hook");
    this.showConnections(state.connections.map(connectionText));
    this.lost.hidden = state.lost === 0;
    setText(this.lost, `lost events: ${state.lost}`);
  }

  // Each connection in a line of its own.
  showConnections(texts) {
    const shown = [...this.carries.children].map((line) => line.textContent);
    if (shown.join("\n") !== texts.join("\n")) {
      this.carries.replaceChildren(...texts.map((text) => make("p", {}, text)));
    }
  }

  // It is shown if its line is searched for, and does something where only such lines are wanted; never taken from under a hand.
  settle(isBusyOnly) {
    const isSearched = view.lines === null || view.lines.has(this.line);
    const isHeld = this.card.contains(document.activeElement);
    this.card.hidden = !isHeld && !(isSearched && (!isBusyOnly || this.isBusy));
  }
}

const telephones = {
  list: [],
  chosen: null,

  // There are telephones for so many lines.
  resize(count) {
    if (this.list.length === count) {
      return;
    }
    this.list = Array.from({ length: count }, (_, place) => new Telephone(place + 1));
    byId("phones").replaceChildren(...this.list.map((telephone) => telephone.card));
    this.list.forEach((telephone) => telephone.toggle(count <= 4));
    this.chosen = null;
    if (count > 0) {
      this.choose(this.list[0], false);
    }
  },

  show(states) {
    this.resize(states.length);
    states.forEach((state, place) => this.list[place].show(state));
    this.settle();
    this.sound();
  },

  get shown() {
    return this.list.filter((telephone) => !telephone.card.hidden);
  },

  // Shows the telephones that are wanted, and says how many of all they are.
  settle() {
    const isBusyOnly = byId("busy-only").checked;
    this.list.forEach((telephone) => telephone.settle(isBusyOnly));
    const shown = this.shown;
    setText(byId("phones-told"), shown.length === this.list.length ? "" : `shown: ${shown.length} of ${this.list.length} lines`);
    if (shown.length > 0 && this.chosen?.card.hidden) {
      this.choose(shown[0], false);
    }
  },

  // Plays what is heard at the chosen one, if it is lifted.
  sound() {
    speaker.hear(this.chosen?.hook === "off" ? this.chosen.signals : []);
  },

  choose(telephone, focus) {
    if (this.chosen !== telephone) {
      this.chosen?.reach(false);
      this.chosen?.card.classList.remove("chosen");
      this.chosen = telephone;
      telephone.reach(true);
      telephone.card.classList.add("chosen");
      this.sound();
    }
    if (focus) {
      telephone.name.focus();
    }
  },

  // How many stand side by side.
  columns() {
    const shown = this.shown;
    const top = shown[0]?.card.offsetTop;
    const below = shown.findIndex((telephone) => telephone.card.offsetTop !== top);
    return below < 0 ? shown.length : below;
  },

  go(steps) {
    const shown = this.shown;
    const place = shown.indexOf(this.chosen) + steps;
    if (place >= 0 && place < shown.length) {
      this.choose(shown[place], true);
    }
  },

  // What was refused is told at its telephone, and above all of them.
  refuse(line, text) {
    this.list[line - 1]?.refuse(text);
    setText(byId("refused"), text === "" ? "" : `${nameOf(line)}: ${text}`);
  },
};

// What the keyboard does on a telephone.
function keyDown(event) {
  if (event.ctrlKey || event.altKey || event.metaKey || !telephones.chosen) {
    return;
  }
  const telephone = telephones.chosen;
  const key = event.key.length === 1 ? event.key.toUpperCase() : event.key;
  const steps = { ArrowLeft: -1, ArrowRight: 1, ArrowUp: -telephones.columns(), ArrowDown: telephones.columns() };
  if (key in steps) {
    telephones.go(steps[key]);
  } else if (KEYS.includes(key)) {
    act(telephone.line, key);
  } else if (key === "H") {
    telephone.pressHook();
  } else if (key === "F") {
    act(telephone.line, "flash");
  } else {
    return;
  }
  event.preventDefault();
}

// Does something at a telephone. What comes of it is told by the events.
async function act(line, word) {
  telephones.refuse(line, "");
  try {
    const answer = await fetch("/phone", {
      method: "POST",
      headers: { "content-type": "application/json" },
      body: JSON.stringify({ line, act: word }),
    });
    if (!answer.ok) {
      telephones.refuse(line, `${word}: refused, ${answer.status} ${answer.statusText}`);
    }
  } catch {
    telephones.refuse(line, `${word}: the gateway doesn't answer`);
  }
}

// ---- The gateway

const POLL = 100;
const POLL_HIDDEN = 1000;
const POLL_LOST = 1000;
// The time of day at which the gateway's clock was 0 is taken anew where it is off by more, in ms.
const CLOCK_PLAY = 100;
// What was refused longer ago, in ms, is no news any more.
const NEWS = 5000;

const ladder = new Ladder();
const gateway = { after: 0, version: null, isFile: false, agent: null, zero: null, timer: 0, turn: 0 };

function stand(is, text) {
  const standing = byId("standing");
  standing.dataset.is = is;
  setText(standing, text);
}

async function ask(path) {
  const answer = await fetch(path, { cache: "no-store" });
  if (!answer.ok) {
    throw new Error(`${path}: ${answer.status}`);
  }
  return answer.json();
}

// Says whether the call agent answers, as the gateway has it.
function tellAgent(clock) {
  const agent = byId("agent");
  const { answers, hasAnswered, waitsSince } = gateway.agent;
  agent.dataset.is = answers ? "live" : "lost";
  if (answers) {
    setText(agent, "the agent answers");
  } else if (hasAnswered) {
    setText(agent, `the agent hasn't answered for ${Math.floor((clock - waitsSince) / 1000)} s`);
  } else {
    setText(agent, "no agent has answered yet");
  }
}

// The gateway's clock, and the time of day beside it.
function tellClock(clock) {
  const zero = Date.now() - clock;
  if (gateway.zero === null || Math.abs(zero - gateway.zero) > CLOCK_PLAY) {
    gateway.zero = zero;
  }
  setText(byId("clock"), clockText(clock));
  setText(byId("wall"), wallText(gateway.zero + clock));
}

// A refusal of what was done last is told at its telephone.
function tellRefusal(text) {
  telephones.refuse(ladder.lastAct?.line ?? 0, `refused: ${text.trim().replace(/^! \d+ /, "")}`);
}

function takeEvent(event, clock) {
  const text = textOfHex(event.hex);
  const { kind, peer, at, hex, said } = event;
  ladder.add({ kind, peer, at, wall: gateway.zero + at, hex, text, said });
  if (event.kind === "told" && text.startsWith("!") && clock - event.at < NEWS) {
    tellRefusal(text);
  }
}

function takeEvents(answer) {
  if (answer.next < gateway.after) {
    // Another run of the program: it is read from its beginning at the next turn.
    gateway.after = 0;
    gateway.version = null;
    gateway.zero = null;
    ladder.clear();
    return;
  }
  if (answer.first > gateway.after + 1 && answer.events.length > 0 && gateway.after > 0) {
    ladder.addGap(answer.first - gateway.after - 1);
  }
  ladder.addAll(answer.events, (event) => takeEvent(event, answer.clock));
  gateway.after = answer.next;
}

function takeState(state) {
  gateway.version = state.version;
  gateway.agent = { answers: state.agent_answers, hasAnswered: state.serving, waitsSince: state.unanswered_since };
  telephones.show(state.lines);
  const off = state.lines.filter((line) => line.hook === "off").length;
  const held = state.lines.reduce((sum, line) => sum + line.connections.length, 0);
  const counts = state.counts;
  setText(byId("numbers"), `${counted(state.lines.length, "line")}, ${off} off hook, ${counted(held, "connection")}, `
    + `datagrams ${counts.datagrams_in} in ${counts.datagrams_out} out, ids from ${state.first}`);
}

// Title, heading and telephones carry the gateway's domain, once it is known, and the names of its lines.
function tellName() {
  const { domain } = ladder;
  const { length } = gateway.isFile ? [] : telephones.list;
  const names = [length > 0 ? nameOf(1) : "", length > 1 ? nameOf(length) : ""].filter((name) => name !== "").join(" to ");
  setText(byId("domain"), domain || "rgwd");
  setText(byId("names"), names);
  const title = [domain, names].filter((part) => part !== "").join(" ");
  setText(document.querySelector("title"), title === "" ? "rgwd" : `${title} - rgwd`);
  setText(byId("telephones-title"), domain === "" ? "Telephones" : `Telephones of ${domain}`);
  telephones.list.forEach((telephone) => telephone.tellName(domain));
}

// Asks what happened, and goes on asking while this is the latest turn.
async function follow(turn) {
  let pause = document.hidden ? POLL_HIDDEN : POLL;
  try {
    const answer = await ask(`/events?after=${gateway.after}`);
    if (turn !== gateway.turn) {
      return;
    }
    tellClock(answer.clock);
    takeEvents(answer);
    // While an answer is waited for, time alone may change the state.
    if (answer.version !== gateway.version || answer.events.length > 0 || gateway.agent.waitsSince !== null) {
      const state = await ask("/state");
      if (turn !== gateway.turn) {
        return;
      }
      takeState(state);
    }
    tellAgent(answer.clock);
    tellName();
    stand("live", "page connected");
    if (answer.more) {
      pause = 0;
    }
  } catch {
    stand("lost", "the gateway doesn't answer");
    setText(byId("agent"), "");
    speaker.hear([]);
    pause = POLL_LOST;
  }
  if (turn === gateway.turn) {
    gateway.timer = setTimeout(() => follow(turn), pause);
  }
}

// Begins to follow the gateway, now.
function start() {
  stop();
  follow(gateway.turn);
}

function stop() {
  clearTimeout(gateway.timer);
  gateway.turn += 1;
}

// ---- A file

// A file stands in the place of the gateway.
function showFile(file) {
  gateway.isFile = true;
  stop();
  speaker.hear([]);
  document.querySelector("main").classList.add("is-file");
  byId("live").hidden = false;
  ["numbers", "clock", "wall", "agent"].forEach((id) => setText(byId(id), ""));
  ladder.clear(MOST_READ);
  // It is read from its beginning on.
  ladder.pane.isLeft = true;
  heard.show();
  stand("file", `${file.name} is read ..`);
}

// Reads a file into the ladder, unless another is opened meanwhile; gives how many events it has.
async function readFile(file, isCurrent) {
  const domain = await configuredDomain(file);
  const recording = new Recording(domain !== null);
  let count = 0;
  for await (const lines of linesOfFile(file)) {
    if (!isCurrent()) {
      break;
    }
    lines.forEach((line) => recording.read(line));
    for (const happened of recording.take()) {
      ladder.add(happened);
      count += happened.kind === "given up" ? 0 : 1;
    }
    ladder.draw();
  }
  if (isCurrent() && domain) {
    ladder.domain = domain;
  }
  return count;
}

async function openFile(file) {
  showFile(file);
  const { turn } = gateway;
  const isCurrent = () => turn === gateway.turn;
  try {
    const count = await readFile(file, isCurrent);
    if (isCurrent()) {
      listCalls(ladder.calls);
      tellName();
      stand("file", `${file.name}: ${counted(count, "event")}`);
    }
  } catch {
    if (isCurrent()) {
      stand("lost", `${file.name} can't be read`);
    }
  }
}

function backToGateway() {
  gateway.isFile = false;
  gateway.after = 0;
  gateway.version = null;
  document.querySelector("main").classList.remove("is-file");
  byId("live").hidden = true;
  byId("file").value = "";
  ladder.clear();
  heard.show();
  start();
}

// ---- What is listened to

byId("phones").addEventListener("keydown", keyDown);
byId("wanted-lines").addEventListener("input", showLines);
byId("busy-only").addEventListener("change", () => telephones.settle());
byId("shown-call").addEventListener("change", (event) => showCall(ladder.calls.calls.get(event.target.value) ?? null));
byId("following").addEventListener("change", () => ladder.pane.toEnd());
byId("tones").addEventListener("change", (event) => speaker.turn(event.target.checked));
byId("save").addEventListener("click", saveShown);
byId("message-call").addEventListener("click", () => showCall(ladder.chosen.call));
byId("message-close").addEventListener("click", hideMessage);
byId("live").addEventListener("click", backToGateway);
byId("report").addEventListener("change", (event) => {
  if (event.target.files.length > 0) {
    openReport(event.target.files[0]);
  }
});
byId("file").addEventListener("change", (event) => {
  if (event.target.files.length > 0) {
    openFile(event.target.files[0]);
  }
});
document.addEventListener("keydown", (event) => {
  if (event.key === "Escape") {
    hideMessage();
  }
});
document.addEventListener("visibilitychange", () => {
  if (!document.hidden && !gateway.isFile) {
    start();
  }
});
showLines();
start();
"##;
