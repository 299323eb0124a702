//! The style of the page.

/// The style: one column of tables, in the system's font, with digits of equal width; light or
/// dark, as the reader's system is set.
pub(crate) const STYLE: &[u8] = br##":root {
  --paper: #fbfbfa; --card: #ffffff; --ink: #1c1e21; --soft: #5c626a; --line: #dcdfe3;
  --good: #1b6e3c; --warn: #8a5200; --bad: #b3261e; --warn-paper: #fff4e0; --bad-paper: #fdecea; --curve: #2458b8;
  --second: #8a5200;
}
@media (prefers-color-scheme: dark) {
  :root {
    --paper: #15171a; --card: #1c1f23; --ink: #e4e6e9; --soft: #9aa2ab; --line: #33383f;
    --good: #6cc78e; --warn: #e3b062; --bad: #ff8a80; --warn-paper: #2e2617; --bad-paper: #36201f; --curve: #7fa8f0;
    --second: #e3b062;
  }
}
* { box-sizing: border-box; }
html { color-scheme: light dark; background: var(--paper); color: var(--ink); }
body {
  margin: 0 auto; padding: 0.75rem 1rem 2rem; max-width: 84rem;
  font: 0.875rem/1.4 system-ui, sans-serif; font-variant-numeric: tabular-nums;
}
header {
  display: flex; flex-wrap: wrap; align-items: baseline; gap: 0.25rem 1.25rem; border-bottom: 1px solid var(--line);
  padding-bottom: 0.5rem;
}
h1 { font-size: 1.125rem; margin: 0; }
h1 span { font-weight: 400; color: var(--soft); }
h2 { font-size: 0.8125rem; font-weight: 600; color: var(--soft); margin: 1.25rem 0 0.375rem; }
p { margin: 0.25rem 0; }
a { color: var(--curve); }
#where { color: var(--soft); overflow-wrap: anywhere; }
#state { margin-left: auto; font-weight: 600; }
#state[data-state="live"] { color: var(--good); }
#state[data-state="gone"] { color: var(--bad); }
#state[data-state="refused"] { color: var(--warn); }
#news:not(:empty) {
  margin-top: 0.5rem; padding: 0.375rem 0.625rem; border-left: 3px solid var(--line); background: var(--card);
}
body[data-wrong="still"] #news, body[data-state="refused"] #news {
  border-color: var(--warn); background: var(--warn-paper);
}
body[data-wrong="fenced"] #news {
  border-color: var(--bad); background: var(--bad); color: var(--card); font-weight: 600;
}
body[data-state="gone"] #news { border-color: var(--bad); background: var(--bad-paper); }
body[data-state="gone"] main { opacity: 0.7; }
.notice { padding: 0.5rem; background: var(--warn-paper); }
.hint, footer { color: var(--soft); font-size: 0.8125rem; max-width: 65rem; }
dl {
  display: grid; grid-template-columns: repeat(8, minmax(0, 1fr)); gap: 1px; margin: 0; background: var(--card);
  border: 1px solid var(--line); overflow: hidden;
}
dl > div { box-shadow: 0 0 0 1px var(--line); padding: 0.375rem 0.625rem; display: flex; flex-direction: column; }
dt { color: var(--soft); font-size: 0.75rem; }
dd { margin: 0; font-size: 1.125rem; }
#plots { display: grid; grid-template-columns: repeat(auto-fit, minmax(18rem, 1fr)); gap: 0.75rem; }
figure { margin: 0; background: var(--card); border: 1px solid var(--line); padding: 0.375rem 0.625rem; }
figcaption, .foot {
  display: flex; justify-content: space-between; gap: 1rem; margin: 0; color: var(--soft); font-size: 0.75rem;
}
figcaption b { color: var(--ink); font-weight: 600; white-space: nowrap; }
svg { display: block; width: 100%; height: 4.5rem; }
svg polyline {
  fill: none; stroke: var(--curve); stroke-width: 1.5; vector-effect: non-scaling-stroke; stroke-linejoin: round;
}
svg polyline + polyline { stroke: var(--second); stroke-dasharray: 4 3; }
svg line { stroke: var(--line); vector-effect: non-scaling-stroke; }
table { width: 100%; border-collapse: collapse; background: var(--card); border: 1px solid var(--line); }
th, td {
  text-align: left; vertical-align: baseline; padding: 0.25rem 0.625rem; border-top: 1px solid var(--line);
  white-space: nowrap;
}
thead th { color: var(--soft); font-weight: 400; font-size: 0.75rem; border-top: 0; }
th small { color: var(--soft); font-weight: 400; font-size: 0.75rem; }
tr[data-mark="fenced"] > * { background: var(--bad-paper); }
.figure { text-align: right; }
td.value { width: 100%; max-width: 0; }
.cut { display: flex; gap: 0.5rem; align-items: baseline; }
.cut bdi { flex: 1 1 auto; min-width: 0; overflow: hidden; text-overflow: ellipsis; white-space: nowrap; }
bdi, .mono { font: 0.8125rem/1.4 ui-monospace, monospace; }
.cut[data-open] { display: block; }
.cut[data-open] bdi {
  display: block; white-space: pre-wrap; overflow-wrap: anywhere; max-height: 18rem; overflow: auto;
}
.cut small { color: var(--soft); flex: none; }
button {
  font: inherit; font-size: 0.75rem; color: var(--curve); background: none; border: 1px solid var(--line);
  border-radius: 3px; padding: 0 0.375rem; flex: none; cursor: pointer;
}
:focus-visible { outline: 2px solid var(--curve); outline-offset: 1px; }
.mark { display: inline-block; padding: 0 0.375rem; border-radius: 3px; border: 1px solid transparent; }
.mark[data-mark="moves"] { color: var(--good); }
.mark[data-mark="quiet"] { color: var(--soft); }
.mark[data-mark="still"] {
  color: var(--warn); background: var(--warn-paper); border-color: var(--warn); font-weight: 600;
}
.mark[data-mark="fenced"] {
  color: var(--bad); background: var(--bad-paper); border-color: var(--bad); font-weight: 600;
}
.wide { overflow-x: auto; }
#refusals { overflow-wrap: anywhere; }
@media (max-width: 64rem) { dl { grid-template-columns: repeat(4, minmax(0, 1fr)); } }
@media (max-width: 40rem) {
  dl { grid-template-columns: repeat(2, minmax(0, 1fr)); }
  body { padding: 0.5rem 0.625rem 2rem; }
  #state { margin-left: 0; flex-basis: 100%; }
  table[aria-describedby="rule"], #rows { display: block; }
  #rows tr {
    display: grid; grid-template-columns: minmax(2.25rem, auto) minmax(0, 1fr) auto 7rem;
    border-top: 1px solid var(--line); padding: 0.25rem 0;
  }
  #rows tr > * { border: 0; padding: 0.125rem 0.5rem; }
  #rows tr > :nth-child(2) { white-space: normal; overflow-wrap: anywhere; }
  #rows tr > :nth-child(4) { display: none; }
  #rows td.value { grid-column: 1 / -1; max-width: 100%; min-width: 0; }
  table[aria-describedby="rule"] > thead {
    position: absolute; width: 1px; height: 1px; overflow: hidden; clip-path: inset(50%);
  }
}
@media (prefers-reduced-motion: no-preference) { main { transition: opacity 0.2s; } }
"##;
