//! How it looks: the file page/page.css, written by `tools/page_files`.

/// How it looks.
pub const STYLE: &str = r##"/* How the page of rgwd looks. */
/* Telephones on the left, the conversation on the right. Light and dark by the choice of the system. */
:root {
  color-scheme: light dark;
  --back: #f6f7f9;
  --card: #ffffff;
  --text: #1c2330;
  --soft: #5b6576;
  --edge: #cfd6e0;
  --rule: #dde3ec;
  --mark: #0b62c4;
  --command: #0b62c4;
  --response: #197a3d;
  --fault: #b3261e;
  --act: #7a4a00;
  --ring: #c45a00;
  --hot: #fff1df;
  --chosen: #e3eefc;
  font: 15px/1.45 system-ui, sans-serif;
}
@media (prefers-color-scheme: dark) {
  :root {
    --back: #12161d;
    --card: #1b212b;
    --text: #e4e9f1;
    --soft: #9aa6b8;
    --edge: #394353;
    --rule: #2a323f;
    --mark: #7db3ff;
    --command: #7db3ff;
    --response: #6fd08c;
    --fault: #ff8a80;
    --act: #e3b566;
    --ring: #ffb066;
    --hot: #33260f;
    --chosen: #21344d;
  }
}
* { box-sizing: border-box; }
[hidden] { display: none !important; }
html, body { height: 100%; margin: 0; }
body {
  display: flex;
  flex-direction: column;
  background: var(--back);
  color: var(--text);
}
h1, h2, p, ol, pre { margin: 0; }
h1 { font-size: 1.15rem; }
h2 { font-size: 1rem; }
button, select, input { font: inherit; color: inherit; }
button {
  background: var(--card);
  border: 1px solid var(--edge);
  border-radius: 6px;
  padding: .15rem .5rem;
  cursor: pointer;
}
button:hover:not(:disabled) { border-color: var(--mark); }
button:disabled { opacity: .45; cursor: default; }
:focus-visible { outline: 2px solid var(--mark); outline-offset: 2px; }
kbd {
  font: .8rem ui-monospace, monospace;
  border: 1px solid var(--edge);
  border-radius: 4px;
  padding: 0 .25rem;
}
header {
  display: flex;
  flex-wrap: wrap;
  align-items: center;
  gap: .4rem 1.2rem;
  padding: .5rem 1rem;
  background: var(--card);
  border-bottom: 1px solid var(--edge);
}
#names { color: var(--soft); font-weight: 400; font-size: .9rem; }
#standing, #agent { font-weight: 600; }
#standing[data-is="lost"], #agent[data-is="lost"] { color: var(--fault); }
#standing[data-is="live"], #agent[data-is="live"] { color: var(--response); }
#numbers, .clocks { color: var(--soft); font-variant-numeric: tabular-nums; }
#clock { margin-right: .6rem; }
.tools { display: flex; flex-wrap: wrap; align-items: center; gap: .4rem 1rem; margin-left: auto; }
.file { border: 1px solid var(--edge); border-radius: 6px; padding: .15rem .5rem; cursor: pointer; }
.file:hover { border-color: var(--mark); }
.file:focus-within { outline: 2px solid var(--mark); outline-offset: 2px; }
.file input { position: absolute; width: 1px; height: 1px; opacity: 0; }
#wanted-lines { width: 10rem; }
#wanted-lines, select {
  max-width: 100%;
  background: var(--card);
  border: 1px solid var(--edge);
  border-radius: 6px;
  padding: .15rem .4rem;
}
#shown-call { width: 12rem; }
main {
  flex: 1;
  min-height: 0;
  display: grid;
  grid-template-columns: minmax(20rem, 2fr) minmax(0, 3fr);
}
main.is-file { grid-template-columns: minmax(0, 1fr); }
main.is-file #telephones { display: none; }
section { display: flex; flex-direction: column; min-width: 0; min-height: 0; padding: .7rem 1rem; gap: .4rem; }
#telephones { border-right: 1px solid var(--edge); overflow-y: auto; }
#telephones > * { flex: none; }
.title { display: flex; flex-wrap: wrap; align-items: baseline; gap: .2rem 1rem; }
.hint { color: var(--soft); font-size: .85rem; }
/* What was refused stays in sight, however far the telephones are scrolled. */
#refused { color: var(--fault); min-height: 1.3em; font-size: .9rem; position: sticky; top: -.7rem; z-index: 1; }
#refused:not(:empty) { background: var(--back); border-bottom: 1px solid var(--fault); padding: .2rem 0; }
#phones {
  display: grid;
  grid-template-columns: repeat(auto-fill, minmax(11.5rem, 1fr));
  gap: .5rem;
  align-items: start;
}
.phone {
  background: var(--card);
  border: 1px solid var(--edge);
  border-radius: 9px;
  padding: .45rem .55rem;
  display: grid;
  gap: .25rem;
}
.phone.off { border-color: var(--mark); }
.phone.chosen .phone-name { text-decoration: underline; text-underline-offset: 3px; }
.phone.rings { border-color: var(--ring); background: var(--hot); }
.phone-head { display: flex; align-items: center; gap: .4rem; }
.phone-name { font-weight: 600; border: 0; background: none; padding: 0 .2rem; }
.phone-hook { margin-left: auto; }
.hears { min-height: 1.4em; font-weight: 600; color: var(--ring); }
.hears.silent { color: var(--soft); font-weight: 400; }
.carries { color: var(--soft); font-size: .82rem; min-height: 1.2em; overflow-wrap: anywhere; }
.lost, .refusal { color: var(--fault); font-size: .82rem; overflow-wrap: anywhere; }
.keys { display: none; grid-template-columns: repeat(4, 1fr); gap: .2rem; }
.phone.open .keys { display: grid; }
.keys button { padding: .2rem 0; }
.keys .flash { grid-column: 1 / -1; }
#ladder { --lanes: 3; }
#lanes {
  overflow-y: hidden;
  scrollbar-gutter: stable;
  display: grid;
  grid-template-columns: 5.6rem minmax(0, 1fr);
  font-weight: 600;
  font-size: .85rem;
  border-bottom: 1px solid var(--edge);
}
.lane-names { grid-column: 2; display: grid; grid-auto-flow: column; grid-auto-columns: minmax(0, 1fr); text-align: center; }
.lane-names span { overflow: hidden; text-overflow: ellipsis; white-space: nowrap; padding: 0 .2rem; }
#ladder { position: relative; overflow-anchor: none; list-style: none; padding: 0; flex: 1; min-height: 8rem; overflow-x: hidden; overflow-y: auto; scrollbar-gutter: stable; }
.row {
  display: grid;
  grid-template-columns: 5.6rem minmax(0, 1fr);
  width: 100%;
  padding: 0;
  border: 0;
  border-radius: 0;
  background: none;
  text-align: left;
}
.row:hover { background: var(--rule); }
.row[aria-pressed="true"] { background: var(--chosen); }
.row .at {
  display: grid;
  align-content: end;
  gap: .2rem;
  padding: 0 .5rem .25rem 0;
  color: var(--soft);
  font: .8rem/1 ui-monospace, monospace;
  text-align: right;
}
.row .wall { font-size: .7rem; }
/* What the ends of a call heard: a line each, and its bar beside the rows of that time. */
#heard { font-size: .85rem; font-variant-numeric: tabular-nums; }
#heard .end { display: flex; align-items: center; gap: .5rem; }
#heard .bar { flex: none; width: 4px; height: 1.1em; }
#heard .bar-1 .bar { background: var(--mark); }
#heard .bar-2 .bar { background: var(--ring); }
.row.heard-1 .at { box-shadow: inset -3px 0 0 var(--mark); }
.row.heard-2 .at { box-shadow: inset -3px 0 0 var(--ring); }
.row.heard-1.heard-2 .at { box-shadow: inset -3px 0 0 var(--mark), inset -6px 0 0 var(--ring); }
.row .track {
  display: grid;
  min-height: 2.6rem;
  align-content: end;
  grid-template-columns: repeat(calc(2 * var(--lanes)), minmax(0, 1fr));
  padding-bottom: .45rem;
  background-image: linear-gradient(to right, transparent calc(50% - 1px), var(--edge) calc(50% - 1px), var(--edge) 50%, transparent 50%);
  background-size: calc(100% / var(--lanes)) 100%;
}
.said, .arrow { grid-column: var(--left) / var(--right); min-width: 0; }
.said { padding: 0 .7rem 1px; text-align: center; font-size: .82rem; line-height: 1.25; }
.said > span { display: block; overflow: hidden; text-overflow: ellipsis; white-space: nowrap; }
/* Of a long head the id is cut, never the line's name: that may stand out over its arrow. */
.said .label { display: flex; justify-content: center; column-gap: .35em; overflow: visible; font-weight: 600; }
.label .word, .label .name, .label .badge { flex: none; }
.label .id { flex: 0 1 auto; min-width: 1ch; overflow: hidden; text-overflow: ellipsis; }
.track:is(.response, .fault, .act, .untold) .label .word:only-child, .track:is(.response, .fault) .label .name {
  flex: 0 1 auto;
  overflow: hidden;
  text-overflow: ellipsis;
}
.track:is(.response, .fault) .label .id { flex: none; }
.said .more { color: var(--soft); font-family: ui-monospace, monospace; font-size: .75rem; }
.arrow { position: relative; border-bottom: 2px solid currentColor; }
.arrow::after {
  content: "";
  position: absolute;
  bottom: -6px;
  border: 5px solid transparent;
}
.arrow.right::after { right: 0; border-left: 9px solid currentColor; border-right: 0; }
.arrow.left::after { left: 0; border-right: 9px solid currentColor; border-left: 0; }
.command { color: var(--command); }
.response { color: var(--response); }
.fault { color: var(--fault); }
.act { color: var(--act); }
.untold { color: var(--soft); }
.track.again .arrow { border-bottom-style: dashed; }
.badge {
  display: inline-block;
  border: 1px solid currentColor;
  border-radius: 99px;
  padding: 0 .4rem;
  margin-left: .1rem;
  font-size: .7rem;
  font-weight: 400;
}
.track.given-up .label :is(.word, .id, .name) { text-decoration: line-through; }
#message { border-top: 1px solid var(--edge); padding-top: .4rem; max-height: 40%; display: flex; flex-direction: column; }
.message-head { display: flex; align-items: baseline; gap: 1rem; }
#message-title { flex: 1; font-weight: 600; overflow-wrap: anywhere; }
#message-text {
  overflow: auto;
  margin-top: .3rem;
  padding: .5rem .7rem;
  border: 1px solid var(--edge);
  border-radius: 6px;
  background: var(--card);
  font: .82rem/1.45 ui-monospace, monospace;
  white-space: pre-wrap;
  overflow-wrap: anywhere;
}
@media (max-width: 60rem) {
  html, body { height: auto; }
  main { grid-template-columns: minmax(0, 1fr); }
  .tools { margin-left: 0; }
  #telephones { border-right: 0; border-bottom: 1px solid var(--edge); max-height: 60vh; }
  #ladder { max-height: 60vh; }
  #message { max-height: 40vh; }
}
/* Where lanes are narrow, what is said stands across all of them, over its arrow. */
@media (max-width: 40rem) {
  section, header { padding-left: .6rem; padding-right: .6rem; }
  #lanes, .row { grid-template-columns: 4.7rem minmax(0, 1fr); }
  .said { grid-column: 1 / -1; padding: .3rem .2rem 1px; }
  .row .at { font-size: .7rem; padding-right: .3rem; }
  .message-head { flex-wrap: wrap; gap: .3rem 1rem; }
}
@media (prefers-reduced-motion: no-preference) {
  .phone.rings .hears { animation: rings 1s steps(2) infinite; }
  @keyframes rings { 50% { opacity: .35; } }
}
"##;
