// The style of the page: light and dark, wide, narrow and printed.

/// The style.
pub(crate) const STYLE: &[u8] = b"\
:root { color-scheme: light dark; --ink: #1b1b1b; --paper: #fff; --dim: #5a5a5a; --line: #c9c9c9; --soft: #f2f2f0;
  --mark: #fff3c4; --good: #00664b; --half: #8a5a00; --bad: #a32a00; --link: #0059a8; }
@media (prefers-color-scheme: dark) { :root { --ink: #ececec; --paper: #16181b; --dim: #a9a9a9; --line: #4a4d52;
  --soft: #22252a; --mark: #4a3f14; --good: #5fd0ad; --half: #f0b95a; --bad: #ff9a73; --link: #8cc4ff; } }
* { box-sizing: border-box; }
body { margin: 0 auto; padding: 1rem; max-width: 100rem; font: 1rem/1.45 system-ui, sans-serif;
  color: var(--ink); background: var(--paper); }
h1 { font-size: 1.3rem; margin: 0; overflow-wrap: anywhere; }
h2 { font-size: 1.05rem; margin: 0 0 .5rem; }
h3 { font-size: 1rem; margin: 0 0 .5rem; overflow-wrap: anywhere; }
h4 { font-size: .9rem; margin: .75rem 0 .25rem; color: var(--dim); }
p { margin: .4rem 0; }
a { color: var(--link); }
code { font: .85rem/1.4 ui-monospace, monospace; white-space: pre-wrap; overflow-wrap: anywhere; }
.verdict { font-weight: bold; font-size: 1.1rem; padding-left: .6rem; border-left: .4rem solid; }
.good { color: var(--good); }
.half { color: var(--half); }
.bad { color: var(--bad); }
main { display: grid; gap: 1.2rem; grid-template: 'wrong' 'time' 'steps' / minmax(0, 1fr); }
#time { grid-area: time; min-width: 0; }
#wrong { grid-area: wrong; overflow-wrap: anywhere; }
#steps { grid-area: steps; min-width: 0; }
#wrong ol { margin: 0; padding-left: 1.4rem; }
#wrong li { margin-bottom: .7rem; }
#wrong li p { margin: 0; color: var(--dim); }
.kind { color: var(--dim); font-size: .85rem; white-space: nowrap; }
thead .f { background: var(--mark); color: var(--bad); }
.box { overflow: auto; max-height: 75vh; border: 1px solid var(--line); scroll-padding: 1rem 1rem 1rem 15rem; }
table { border-collapse: separate; border-spacing: 0; font-size: .85rem; table-layout: fixed; width: 1px; }
col { width: 32px; }
col.p, col.d { width: 37px; }
col:first-child { width: 14rem; }
th { font-weight: normal; text-align: left; background: var(--soft); }
thead { position: sticky; top: 0; z-index: 2; }
tr > th:first-child { position: sticky; left: 0; z-index: 1; padding: 0 .5rem;
  border-right: 1px solid var(--line); overflow: hidden; text-overflow: ellipsis; white-space: nowrap; }
thead th { border-bottom: 1px solid var(--line); vertical-align: bottom; }
thead .way { padding: .2rem .4rem; font-weight: bold; border-bottom: 0; }
button { font: inherit; color: inherit; background: none; border: 0; padding: 0; margin: 0; cursor: pointer; }
thead button { margin: 0 auto; display: flex; flex-direction: column; justify-content: space-between;
  align-items: center; gap: .3rem;
  width: 32px; height: 11rem; padding: .3rem 0; }
thead button span { writing-mode: vertical-rl; transform: rotate(180deg); white-space: nowrap; color: var(--dim); }
td { height: 32px; padding: 0 3px; text-align: center; }
tbody th { height: 32px; }
td button, .key { display: inline-block; width: 26px; height: 26px; line-height: 26px; text-align: center;
  color: #111; print-color-adjust: exact; -webkit-print-color-adjust: exact; }
.i button, .key.i { background: #9fd3f2; border-radius: 50%; }
.r button, .key.r { background: #3cb890; border-radius: 0 50% 50% 0; }
.s button, .key.s { background: #f0b13c; border-radius: 0; }
.e button, .key.e { background: #ee7a45; border-radius: .7rem 0; }
.n button, .key.n { background: #d9a3c6; border-radius: 50% 50% 0 0; }
.x button, .key.x { color: var(--dim); }
.c button, .key.c { box-shadow: 0 0 0 2px var(--ink); }
.t button, .key.t { text-decoration: underline; text-decoration-thickness: 2px; }
.d { border-left: 5px double var(--dim); }
.p { border-left: 5px solid var(--bad); }
thead .on, thead th:target, tbody tr:target > th { background: var(--mark); }
col.on { background: var(--mark); }
td .on { outline: 3px solid var(--link); }
:focus-visible { outline: 3px solid var(--link); outline-offset: 2px; }
.legend { display: flex; flex-wrap: wrap; gap: .3rem 1rem; font-size: .85rem; align-items: center; }
.legend > span { white-space: nowrap; }
.bar { display: inline-block; width: 5px; height: 26px; margin-right: .4rem; vertical-align: middle;
  background: var(--bad); print-color-adjust: exact; -webkit-print-color-adjust: exact; }
.legend .key { margin-right: .4rem; }
.step { border-top: 1px solid var(--line); padding: .8rem 0; content-visibility: auto;
  contain-intrinsic-size: auto 20rem; }
.step ul { margin: 0; padding-left: 1.2rem; }
.step li { margin-bottom: .4rem; overflow-wrap: anywhere; }
.step li.on { background: var(--mark); }
dl { margin: .2rem 0; display: grid; grid-template-columns: 4rem minmax(0, 1fr); gap: 0 .5rem; }
dt { color: var(--dim); }
dd { margin: 0; }
.js .step { display: none; border: 1px solid var(--line); padding: .8rem; }
.js .step.on { display: block; }
#process { border: 1px solid var(--line); border-bottom: 0; padding: .8rem; background: var(--soft); }
@media (max-width: 40rem) {
  body { padding: .6rem; }
  col:first-child { width: 8rem; }
  .box { scroll-padding-left: 9rem; }
}
@media (min-width: 64rem) {
  .two { grid-template: 'wrong time' auto 'wrong steps' 1fr / 21rem minmax(0, 1fr); }
}
@media print {
  :root { --ink: #000; --paper: #fff; --dim: #444; --line: #999; --soft: #eee; --mark: #eee; --link: #000; }
  body { font-size: 9pt; }
  main, .two { display: block; }
  .box { overflow: visible; max-height: none; }
  thead, tr > th:first-child { position: static; }
  .js .step { display: block; }
  @page { size: landscape; margin: 1cm; }
  col { width: 19px; }
  col.p, col.d { width: 24px; }
  col:first-child { width: 8rem; }
  td { height: 20px; padding: 0; }
  tbody th { height: 20px; }
  td button { width: 16px; height: 16px; line-height: 16px; }
  thead button { width: 18px; }
}
";
