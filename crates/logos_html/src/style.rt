//! Contains the style sheet of a page. The style sheet is a part of the page, so that the page
//! needs no other file. Used by `document`.

/// The style sheet for light and dark themes, narrow and wide screens, and paper. While an item has
/// the focus or the pointer, the label and the description of the item are shown at the bottom.
pub(crate) const STYLE: &str = "\
:root {
  color-scheme: light dark; scroll-padding-bottom: 14rem;
  --back: #fff; --ink: #1b1b1f; --faint: #55555e; --line: #c8c8d0; --link: #0b57a4;
  --bad: #ffd6d6; --bad-ink: #a00010; --bar: #1b1b1f; --bar-ink: #fff;
  --c0: #d8e9ff; --c1: #d9f2d9; --c2: #fdeec2; --c3: #eadcfb;
  --c4: #d3f1f1; --c5: #fbdfee; --c6: #e6ecc8; --c7: #e2e2ea;
}
@media (prefers-color-scheme: dark) {
  :root {
    --back: #16161a; --ink: #ececf1; --faint: #a9a9b6; --line: #46464f; --link: #8cc4ff;
    --bad: #5e1418; --bad-ink: #ffb3b3; --bar: #ececf1; --bar-ink: #16161a;
    --c0: #1d3a5c; --c1: #1f4424; --c2: #4d3d0e; --c3: #3f2a5c;
    --c4: #134747; --c5: #54233f; --c6: #3c4316; --c7: #3a3a44;
  }
}
* { box-sizing: border-box; }
body {
  margin: 0 auto; padding: 1rem; max-width: 80rem; background: var(--back); color: var(--ink);
  font: 1rem/1.5 system-ui, sans-serif; overflow-wrap: anywhere;
}
h1, h2 { line-height: 1.2; }
h2 { margin-top: 2rem; }
h1 code { font-size: 1em; }
a { color: var(--link); }
nav ul { display: flex; flex-wrap: wrap; gap: .25rem 1.25rem; margin: 0; padding: 0; list-style: none; }
code, pre { font: .9rem/1.6 ui-monospace, monospace; }
code { white-space: pre-wrap; }
.box { overflow: auto; max-width: 100%; border: 1px solid var(--line); border-radius: .3rem; }
.cut { border-left: .25rem solid var(--bad-ink); padding-left: .75rem; }
table { border-collapse: collapse; width: 100%; overflow-wrap: normal; }
th, td {
  padding: .3rem .7rem; border-bottom: 1px solid var(--line); text-align: left;
  vertical-align: top;
}
td { max-width: 30rem; }
table:not(.s) td:nth-child(4) { min-width: 14rem; }
td code { overflow-wrap: anywhere; }
thead th { background: var(--c7); white-space: nowrap; }
td ul { display: flex; flex-wrap: wrap; gap: 0 1.5rem; margin: 0; padding: 0; list-style: none; }
.s td:last-child { width: 100%; max-width: none; }
.n { text-align: right; white-space: nowrap; }
.o { color: var(--faint); font-size: .85rem; }
pre { margin: 0; padding: .75rem; white-space: pre-wrap; overflow-wrap: anywhere; }
.k, .e { border-radius: .2rem; box-shadow: inset 0 0 0 1px var(--back); }
pre .k, pre .e { padding: .15rem .1rem; }
th .k { padding: .05rem .4rem; }
.c0 { background: var(--c0); } .c1 { background: var(--c1); } .c2 { background: var(--c2); }
.c3 { background: var(--c3); } .c4 { background: var(--c4); } .c5 { background: var(--c5); }
.c6 { background: var(--c6); } .c7 { background: var(--c7); }
.e {
  background: var(--bad); color: var(--bad-ink); font-weight: bold;
  text-decoration: underline wavy; text-underline-offset: .2rem;
}
.e::before { content: \"\\26A0\"; margin-right: .1rem; }
pre .k:hover, pre .e:hover { outline: 2px solid var(--faint); }
:focus-visible, :target { outline: 3px solid var(--link); outline-offset: 1px; }
[aria-label]:is(.k, .e):is(:hover, :focus)::after {
  content: attr(aria-label); position: fixed; inset: auto 0 0 0; padding: .6rem 1rem;
  background: var(--bar); color: var(--bar-ink); font: 1rem/1.4 system-ui, sans-serif;
  white-space: pre-wrap; text-decoration: none; z-index: 2;
}
[aria-label]:is(.k, .e):focus::after { z-index: 1; }
[aria-description]:is(.k, .e):is(:hover, :focus)::after {
  content: attr(aria-label) \"\\A\" attr(aria-description);
}
svg { display: block; }
svg .l { fill: none; stroke: var(--faint); }
svg .end { stroke-dasharray: 5 4; }
svg circle { fill: var(--back); stroke: var(--ink); }
svg marker path { fill: var(--faint); }
svg text {
  fill: var(--ink); text-anchor: middle; font: 13px ui-monospace, monospace;
  paint-order: stroke; stroke: var(--back); stroke-width: 4px;
}
footer { margin: 2rem 0 4rem; color: var(--faint); font-size: .9rem; }
@media print {
  nav, .skip { display: none; }
  body { max-width: none; padding: 0; }
  .box { overflow: visible; border: 0; }
  .k, .e, thead th { print-color-adjust: exact; -webkit-print-color-adjust: exact; }
}
";
