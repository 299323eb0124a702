//! The script of the page.

/// The script. It polls `/scan` and `/stats` once a second while the page is visible, and `/history` whenever the page
/// becomes visible, and puts the results into the page: each value by `textContent` alone. Numbers keep all their
/// digits, as JavaScript's own numbers above 2^53 don't.
pub(crate) const SCRIPT: &[u8] = br##""use strict";
const REST = 1000, RETRY = 3000, PATIENCE = 5000;   // milliseconds between polls, after a failed one, and for one
const POINTS = 180;                                 // of a plot: three minutes
const STILL_TIMES = 10, STILL_LEAST = 5000, STILL_ELSE = 60000, STILL_RESTS = 3;

const byId = (id) => document.getElementById(id);
const make = (name, parent, attributes) => {
  const element = document.createElement(name);
  for (const key in attributes) element.setAttribute(key, attributes[key]);
  if (parent) parent.append(element);
  return element;
};
const say = (element, text) => { if (element.textContent !== text) element.textContent = text; };

// Numbers become strings of digits, so that none loses a digit. Strings are matched first and stay as they are.
const TOKEN = /"[^"\\]*(?:\\.[^"\\]*)*"|-?\d+(?:\.\d+)?(?:[eE][+-]?\d+)?/g;
const parse = (text) => JSON.parse(text.replace(TOKEN, (token) => token[0] === '"' ? token : '"' + token + '"'));

const grouped = (digits) => BigInt(digits).toLocaleString("en");
const rounded = (x) => x === 0 ? "0" : x < 10 ? x.toFixed(1) : Math.round(x).toLocaleString("en");
const span = (ms) => {
  if (ms < 0.9995) return Math.round(ms * 1000) + " \u00b5s";
  if (ms < 999.5) return (ms < 9.95 ? ms.toFixed(1) : Math.round(ms)) + " ms";
  const s = ms / 1000;
  if (s < 59.95) return s.toFixed(s < 10 ? 1 : 0) + " s";
  const minutes = Math.floor(s / 60);
  if (minutes < 60) return minutes + " min " + Math.floor(s % 60) + " s";
  const hours = Math.floor(minutes / 60);
  if (hours < 48) return hours + " h " + minutes % 60 + " min";
  return Math.floor(hours / 24) + " d " + hours % 24 + " h";
};
const size = (bytes) => {
  const units = ["B", "KiB", "MiB", "GiB", "TiB"];
  let x = Number(bytes), i = 0;
  while (x >= 1024 && i + 1 < units.length) { x /= 1024; i += 1; }
  return (i === 0 ? x : x.toFixed(1)) + " " + units[i];
};

// What a reader can't see, or what would turn the text around, is shown by its code.
const HIDDEN = /[\u0000-\u001f\u007f-\u009f\u00ad\u061c\u200b-\u200f\u2028-\u202e\u2060-\u206f\ufeff]/g;
const visible = (text) =>
  text.replace(HIDDEN, (c) => c === "\n" ? "\u21b5\n" : "\\u{" + c.charCodeAt(0).toString(16) + "}");
const shown = (value) => {
  if ("text" in value) {
    const bytes = new TextEncoder().encode(value.text).length;
    return { text: visible(value.text), form: bytes === 0 ? "empty" : bytes + " bytes" };
  }
  const raw = atob(value.base64);
  let hex = "";
  for (let i = 0; i < raw.length; i += 1)
    hex += (i > 0 && i % 4 === 0 ? " " : "") + raw.charCodeAt(i).toString(16).padStart(2, "0");
  return { text: hex, form: raw.length + " bytes, hex" };
};

// Of counts by bounds: the bound that so large a part is within, in milliseconds, and the place of that bound.
const quantile = (counts, bounds, part) => {
  const all = counts.reduce((sum, n) => sum + n, 0);
  if (all === 0) return null;
  let sum = 0;
  for (let place = 0; place < counts.length; place += 1) {
    sum += counts[place];
    if (sum >= all * part) return { place, ms: place < bounds.length ? bounds[place] : Infinity };
  }
  return null;
};
const within = (found, bounds) =>
  found === null ? "\u2013" : found.ms === Infinity ? "> " + span(bounds[bounds.length - 1]) : span(found.ms);

const tiles = new Map();
const tile = (name, text) => {
  if (!tiles.has(name)) {
    const box = make("div", byId("tiles"));
    say(make("dt", box), name);
    tiles.set(name, make("dd", box));
  }
  say(tiles.get(name), text);
};

const SVG = "http://www.w3.org/2000/svg";
class Plot {
  constructor(name, curves) {
    const figure = make("figure", byId("plots"));
    const caption = make("figcaption", figure);
    say(make("span", caption), name);
    this.name = name;
    this.now = make("b", caption);
    this.svg = figure.appendChild(document.createElementNS(SVG, "svg"));
    this.svg.setAttribute("viewBox", "0 0 " + (POINTS - 1) + " 100");
    this.svg.setAttribute("preserveAspectRatio", "none");
    this.svg.setAttribute("role", "img");
    const base = this.svg.appendChild(document.createElementNS(SVG, "line"));
    for (const [key, at] of [["x1", 0], ["x2", POINTS - 1], ["y1", 99], ["y2", 99]]) base.setAttribute(key, at);
    this.lines = Array.from({ length: curves }, () => this.svg.appendChild(document.createElementNS(SVG, "polyline")));
    this.points = Array.from({ length: curves }, () => []);
    const foot = make("p", figure, { class: "foot" });
    say(make("span", foot), "3 min ago");
    this.most = make("span", foot);
    say(make("span", foot), "now");
  }
  clear() { this.points = this.points.map(() => []); }
  add(values) {
    this.points.forEach((points, i) => { points.push(values[i]); if (points.length > POINTS) points.shift(); });
  }
  draw(now, most) {
    const seen = this.points.flat().filter((x) => x !== null);
    const top = Math.max(...seen, 0) || 1;
    this.lines.forEach((line, i) => {
      const first = POINTS - this.points[i].length;
      line.setAttribute("points", this.points[i].map((x, k) =>
        x === null ? "" : (first + k) + "," + (98 - 94 * x / top).toFixed(1)).join(" "));
    });
    say(this.now, now);
    say(this.most, "top " + most(top));
    this.svg.setAttribute("aria-label", this.name + ": now " + now + ", at most " + most(top));
  }
}
const plots = [new Plot("Updates stored a second", 1), new Plot("Scans a second", 1),
  new Plot("A store: half within, and 99 % (dashed)", 2)];

// One segment: its row, and what was seen of it.
class Row {
  constructor(index) {
    this.row = make("tr", byId("rows"), { role: "row" });
    const head = make("th", this.row, { role: "rowheader", scope: "row" });
    say(make("span", head), index + " ");
    this.name = make("small", head);
    const cell = (kind) => make("td", this.row, { role: "cell", class: kind });
    this.number = cell("figure");
    this.age = cell("figure");
    this.rate = cell("figure");
    this.mark = make("span", cell(""), { class: "mark" });
    this.cut = make("div", cell("value"), { class: "cut" });
    this.value = make("bdi", this.cut);
    this.form = make("small", this.cut);
    this.button = make("button", this.cut,
      { type: "button", "aria-expanded": "false", "aria-label": "The whole value of segment " + index });
    say(this.button, "whole");
    this.button.addEventListener("click", () => {
      const opens = !this.cut.hasAttribute("data-open");
      this.cut.toggleAttribute("data-open", opens);
      this.button.setAttribute("aria-expanded", String(opens));
      say(this.button, opens ? "cut" : "whole");
      if (opens) this.value.setAttribute("tabindex", "0"); else this.value.removeAttribute("tabindex");
      this.fit();
    });
    new ResizeObserver(() => this.fit()).observe(this.cut);
    this.seen = null; this.source = null; this.rests = 0; this.rest = 0; this.moved = null; this.state = null;
  }
  show(segment, figures, at) {
    say(this.name, figures && figures.name !== null ? visible(figures.name) : "");
    say(this.number, grouped(segment.number));
    const source = "text" in segment ? "t" + segment.text : "b" + segment.base64;
    if (source !== this.source) {
      this.source = source;
      const { text, form } = shown(segment);
      say(this.value, text);
      say(this.form, form);
      this.fit();
    }
    this.learn(BigInt(segment.number), at);
    const age = figures && figures.age_milliseconds !== null ? Number(figures.age_milliseconds) : null;
    say(this.age, age === null ? "\u2013" : span(Math.max(age, 0)));
    this.judge(figures, age, at);
  }
  // Only a value that doesn't fit has a button that shows it whole.
  fit() {
    if (this.cut.hasAttribute("data-open")) return;
    this.button.hidden = this.value.scrollWidth <= this.value.clientWidth && !this.value.textContent.includes("\n");
  }
  // The usual rest: of each move that was seen, the time since the one before, the later ones counting for more.
  learn(number, at) {
    if (this.seen !== null && number > this.seen) {
      const moves = Number(number - this.seen);
      if (this.moved !== null) {
        const rest = (at - this.moved) / moves;
        this.rest = this.rests === 0 ? rest : this.rest * 0.8 + rest * 0.2;
        this.rests += 1;
      }
      this.moved = at;
    }
    this.seen = number;
  }
  judge(figures, age, at) {
    const since = this.moved !== null ? at - this.moved : age;
    const most = this.rests >= STILL_RESTS ? Math.max(STILL_TIMES * this.rest, STILL_LEAST) : STILL_ELSE;
    let state = since !== null && since <= most ? "moves" : age === null ? "quiet" : "still";
    if (figures && figures.fenced) state = "fenced";
    this.state = state;
    this.row.dataset.mark = this.mark.dataset.mark = state;
    say(this.mark, state === "still" ? "stands still" : state);
  }
}
const rows = [];

class Store {
  constructor(index) {
    const row = make("tr", byId("stores"), { role: "row" });
    say(make("th", row, { role: "rowheader", scope: "row" }), String(index));
    this.cells = Array.from({ length: 6 }, () => make("td", row, { role: "cell", class: "figure" }));
    this.file = make("bdi", make("td", row, { role: "cell" }));
  }
  show(figures, bounds) {
    const counts = figures.store.counts.map(Number);
    const mean = (times) => {
      const n = times.counts.reduce((sum, x) => sum + Number(x), 0);
      return n === 0 ? "\u2013" : span(Number(times.total_nanoseconds) / n / 1e6);
    };
    const texts = [grouped(figures.updates), mean(figures.store), within(quantile(counts, bounds, 0.5), bounds),
      within(quantile(counts, bounds, 0.99), bounds), mean(figures.value_wait), mean(figures.gate_wait)];
    texts.forEach((text, i) => say(this.cells[i], text));
    say(this.file, figures.file === null ? "\u2013" : visible(figures.file));
  }
}
const stores = [];

const state = (name, text) => {
  byId("state").dataset.state = name;
  document.body.dataset.state = name;
  say(byId("state"), text);
  if (name === "live") return;
  title(name);
  document.body.dataset.wrong = "";
};
// What an operator sees of a window that stands behind others.
const title = (mark) => {
  const text = mark === "" ? "snapd" : mark + " \u2013 snapd";
  if (document.title !== text) document.title = text;
};

// Only what changes is told: a screen reader says each once.
let told = "";
const tell = (text) => { if (text !== told) { told = text; say(byId("news"), text); } };
const tellMarks = () => {
  const listed = (mark, text) =>
    rows.map((row, i) => row.state === mark ? text(row, i) : null).filter((it) => it !== null).join(", ");
  const plain = (row, i) => i, named = (row, i) => i + (row.name.textContent && " (" + row.name.textContent + ")");
  const fenced = listed("fenced", named), still = listed("still", named);
  title([fenced && "fenced " + listed("fenced", plain), still && "still " + listed("still", plain)]
    .filter(Boolean).join(", "));
  tell([fenced && "Fenced: segment " + fenced + ". It takes no update until a restart.",
    still && "Stands still: segment " + still + "."].filter(Boolean).join(" "));
  document.body.dataset.wrong = fenced ? "fenced" : still ? "still" : "";
};

let before = null;
const show = (scan, stats, past, at) => {
  const bounds = stats.bounds_microseconds.map((us) => Number(us) / 1000);
  say(byId("version"), stats.version);
  say(byId("where"), stats.addresses.join("  "));
  scan.segments.forEach((segment) => {
    const i = Number(segment.segment);
    while (rows.length <= i) rows.push(new Row(rows.length));
    rows[i].show(segment, stats.segments[i], at);
  });
  stats.segments.forEach((figures, i) => {
    while (stores.length <= i) stores.push(new Store(stores.length));
    stores[i].show(figures, bounds);
  });
  if (past !== null) showPast(past.samples, bounds);
  showRates(stats, bounds, at);
  const refused = stats.refusals.filter((r) => r.count !== "0").map((r) => grouped(r.count) + " " + r.name);
  say(byId("refusals"), refused.length === 0 ? "none" : refused.join(", "));
  tile("Connections open", grouped(stats.connections.open));
  tile("Connections in all", grouped(stats.connections.total));
  tile("Memory", stats.resident_bytes === null ? "\u2013" : size(stats.resident_bytes));
  tile("Running for", stats.uptime_milliseconds === null ? "\u2013" : span(Number(stats.uptime_milliseconds)));
  tellMarks();
};

// What the server saw before this page did: each sample tells what was counted up to then.
const showPast = (samples, bounds) => {
  plots.forEach((plot) => plot.clear());
  samples.slice(1).forEach((sample, i) => {
    const seconds = Number(sample.uptime_milliseconds - samples[i].uptime_milliseconds) / 1000;
    const counts = sample.store_counts.map((n, place) => Number(BigInt(n) - BigInt(samples[i].store_counts[place])));
    const stores = counts.reduce((a, b) => a + b, 0);
    add(stores / seconds, Number(BigInt(sample.scans) - BigInt(samples[i].scans)) / seconds, counts, bounds);
  });
};

// What happened between this poll and the one before. A server that began anew has no poll before.
const showRates = (stats, bounds, at) => {
  if (before !== null && Number(stats.uptime_milliseconds) < Number(before.stats.uptime_milliseconds)) before = null;
  const seconds = before === null ? 0 : (at - before.at) / 1000;
  const rate = (now, then) => seconds > 0 ? Math.max(Number(BigInt(now) - BigInt(then)), 0) / seconds : 0;
  const known = (text) => seconds > 0 ? text : "\u2013";
  const old = before === null ? stats : before.stats;
  const updates = stats.segments.map((s, i) => old.segments[i] ? rate(s.updates, old.segments[i].updates) : 0);
  updates.forEach((x, i) => { if (rows[i]) say(rows[i].rate, known(rounded(x))); });
  const sum = updates.reduce((a, b) => a + b, 0);
  const scans = rate(stats.requests.scan, old.requests.scan) + rate(stats.requests.part, old.requests.part);
  const counts = new Array(bounds.length + 1).fill(0);
  stats.segments.forEach((s, i) => s.store.counts.forEach((n, place) => {
    if (old.segments[i]) counts[place] += Number(BigInt(n) - BigInt(old.segments[i].store.counts[place]));
  }));
  tile("Updates stored/s", known(rounded(sum)));
  tile("Scans/s", known(rounded(scans)));
  tile("Received/s", known(size(Math.round(rate(stats.received_bytes, old.received_bytes)))));
  tile("Sent/s", known(size(Math.round(rate(stats.sent_bytes, old.sent_bytes)))));
  if (before !== null) add(sum, scans, counts, bounds);
  draw(known(rounded(sum)), known(rounded(scans)), counts, bounds);
  before = { stats, at };
};

const add = (updates, scans, counts, bounds) => {
  const step = (part) => {
    const found = quantile(counts, bounds, part);
    return found === null ? null : found.place + 1;
  };
  plots[0].add([updates]);
  plots[1].add([scans]);
  plots[2].add([step(0.5), step(0.99)]);
};

const draw = (updates, scans, counts, bounds) => {
  const bound = (x) =>
    x - 1 < bounds.length ? span(bounds[Math.max(Math.round(x) - 1, 0)]) : "> " + span(bounds[bounds.length - 1]);
  plots[0].draw(updates, rounded);
  plots[1].draw(scans, rounded);
  plots[2].draw(
    within(quantile(counts, bounds, 0.5), bounds) + ", " + within(quantile(counts, bounds, 0.99), bounds), bound);
};

class Refused extends Error {}
const fetchText = async (path, signal) => {
  const answer = await fetch(path, { cache: "no-store", signal });
  const text = await answer.text();
  if (!answer.ok) throw new Refused(path + " answers " + answer.status + " " + text.trim().slice(0, 80));
  return text;
};

let timer = null, asks = false, since = null;
const ask = async () => {
  if (asks || document.hidden) return;
  asks = true;
  clearTimeout(timer);
  const patience = new AbortController();
  const end = setTimeout(() => patience.abort(), PATIENCE);
  let rest = REST;
  try {
    const paths = before === null ? ["/scan", "/stats", "/history"] : ["/scan", "/stats"];
    const [scan, stats, past] = await Promise.all(paths.map((path) => fetchText(path, patience.signal)));
    show(parse(scan), parse(stats), past === undefined ? null : parse(past), performance.now());
    since = null;
    state("live", "live");
  } catch (error) {
    rest = RETRY;
    before = null;
    since = since || new Date();
    if (error instanceof Refused) {
      state("refused", "the server refuses");
      tell("The server is there and refuses: " + error.message);
    } else {
      state("gone", "the server has been gone since " + since.toLocaleTimeString());
      tell("The server hasn't answered since " + since.toLocaleTimeString() + ". What stands here is from before; "
        + "the page asks again every " + RETRY / 1000 + " seconds.");
    }
  } finally {
    clearTimeout(end);
    asks = false;
    timer = setTimeout(ask, rest);
  }
};
document.addEventListener("visibilitychange", () => {
  if (document.hidden) { clearTimeout(timer); before = null; } else ask();
});
ask();
"##;
