// How a page looks (CSS). All sizes are in units of the root's font, which grows with the window: a page looks the same at 1280 x 720 and at
// 1920 x 1080. What has a colour has a word, a mark or a stroke too.

/// The styles of a page.
pub const STYLE: &str = r#"<style>
:root { --zoom: 1; font-size: calc(min(1.25vw, 2.222vh) * var(--zoom)); color-scheme: light;
  --ground: #fff; --text: #111; --dim: #555; --line: #bbb; --panel: #f5f5f5; --head: #e6e6e6;
  --changed: #b3005a; --fresh: #fde3ef; --walked: #d5f3d8; --walked-line: #1b6e2b; --shared: #ffefb8;
  --slot0: #0b57a4; --slot1: #a33c00; --slot2: #00683c; --slot3: #6a2ca0; --slot4: #7a5c00; --slot5: #006a75; --slot6: #9a1f4b; --slot7: #444 }
:root.dark { color-scheme: dark;
  --ground: #111; --text: #f2f2f2; --dim: #b0b0b0; --line: #555; --panel: #1c1c1c; --head: #2c2c2c;
  --changed: #ff7ab8; --fresh: #4a1a33; --walked: #123d1c; --walked-line: #7ddc8b; --shared: #453a10;
  --slot0: #8cc4ff; --slot1: #ffb184; --slot2: #7fe0b0; --slot3: #d3adff; --slot4: #f0d070; --slot5: #7fdbe8; --slot6: #ff9dc0; --slot7: #ccc }
* { box-sizing: border-box }
[hidden] { display: none !important }
body { margin: 0; height: 100vh; display: flex; flex-direction: column; overflow: hidden; color: var(--text); background: var(--ground); font: 1rem/1.35 system-ui, sans-serif }
header { flex: none; display: flex; gap: .6rem; align-items: center; padding: .2rem .8rem; background: var(--head); border-bottom: 1px solid var(--line) }
h1 { flex: 0 1 auto; margin: 0; font-size: 1rem; white-space: nowrap; overflow: hidden; text-overflow: ellipsis }
header input { flex: 1 1 6rem; min-width: 4rem; accent-color: var(--changed) }
header span { color: var(--dim); font-size: .85rem; white-space: nowrap }
button { font: inherit; color: inherit; background: var(--ground); border: 1px solid var(--line); border-radius: .25rem; padding: .05rem .5rem; cursor: pointer }
output { font-weight: bold; white-space: nowrap }
#top { flex: none; height: 11.6rem; display: grid; grid-template-columns: minmax(0, 5fr) minmax(0, 7fr); gap: .8rem; padding: .4rem .8rem 0 }
#top.prose { grid-template-columns: minmax(0, 1fr) }
#top.prose #trace { display: none }
body.early #top { height: auto; flex: 1; min-height: 0 }
body.early main { display: none }
#lines, #trace, .panel, .row { font-family: ui-monospace, Menlo, Consolas, 'DejaVu Sans Mono', monospace }
#lines { overflow: hidden; display: flex; flex-direction: column; gap: .1rem; justify-content: center; min-height: 0 }
#lines div { color: var(--dim); font-size: .95rem; white-space: pre; overflow: hidden; text-overflow: ellipsis; flex: none; cursor: pointer }
#lines .note { font-family: system-ui, sans-serif }
#lines .now { color: var(--text); font-size: 1.4rem; font-weight: bold; white-space: pre-wrap; overflow-wrap: anywhere; line-height: 1.2; border-left: .3rem solid var(--changed); padding-left: .5rem; margin: .15rem 0 }
#lines .answer { color: var(--changed) }
#lines .now .answer { display: inline-block }
.prose #lines { justify-content: flex-start }
.prose #lines div { color: var(--text); font-size: 1em; margin-bottom: .25em; white-space: pre-wrap; overflow-wrap: anywhere; cursor: default }
#trace { margin: 0; overflow: hidden; font-size: .95rem; line-height: 1.3; border: 1px solid var(--line); background: var(--panel); padding: .3rem .6rem; min-height: 0 }
#trace div { white-space: pre-wrap; overflow-wrap: anywhere; padding-left: 2ch; text-indent: -2ch }
main { flex: 1; min-height: 0; display: grid; grid-template-columns: minmax(0, 1fr) minmax(0, 1.12fr) minmax(0, 1fr); gap: .6rem; padding: .5rem .8rem .6rem; font-size: 1.08rem }
.panel { min-height: 0; overflow: hidden; border: 1px solid var(--line); background: var(--panel); padding: .2rem .3rem }
.row { display: flex; flex-wrap: wrap; gap: 0 .55ch; align-items: baseline; white-space: nowrap; overflow: hidden; line-height: 1.36; padding: 0 .3rem; border-left: .3rem solid transparent }
.tight { font-size: 1.01rem } .tight .row { line-height: 1.28 }
.row.head { font-weight: bold; background: var(--head); margin: .15rem 0 .1rem }
.row.dim, .row.more { color: var(--dim) }
.row.more { cursor: pointer; font-family: system-ui, sans-serif }
.row.changed { border-left-color: var(--changed) }
.row.walked { background: var(--walked); outline: 1px solid var(--walked-line); outline-offset: -1px }
.row.shared { background: var(--shared) }
.row.gone { color: var(--dim); text-decoration: line-through }
.row.bytes { padding-left: 1.2rem }
.row .fresh { background: var(--fresh); color: var(--changed); font-weight: bold; border-radius: .2rem }
.name { flex: none; width: 11.2ch; color: var(--dim) }
.mark { border: 1px solid currentColor; border-radius: .3rem; padding: 0 .3ch; line-height: 1.1 }
.who { border: 1px solid currentColor; border-radius: .3rem; padding: 0 .35ch; font-weight: bold; line-height: 1.1 }
.byte { padding: 0 .15ch; border: 2px solid transparent; border-radius: .2rem; line-height: 1.05 }
.byte.touched { border-color: var(--text); font-weight: bold }
.slot0 { color: var(--slot0) } .slot1 { color: var(--slot1) } .slot2 { color: var(--slot2) } .slot3 { color: var(--slot3) }
.slot4 { color: var(--slot4) } .slot5 { color: var(--slot5) } .slot6 { color: var(--slot6) } .slot7 { color: var(--slot7) }
#help { position: absolute; inset: 15% 15% auto; padding: 1rem 2rem; border: .2rem solid var(--changed); background: var(--ground); font-size: 1.2rem; cursor: pointer }
#help:not([hidden]) { display: grid; grid-template-columns: max-content 1fr; gap: .3rem 1.5rem }
#help b { font-family: ui-monospace, Menlo, Consolas, 'DejaVu Sans Mono', monospace }
body.all .panel, body.all #trace, body.all #lines { overflow: auto }
@media (max-width: 40em) {
  :root { font-size: calc(14px * var(--zoom)) }
  body { height: auto; overflow: visible }
  #top, main { display: block; height: auto } .panel, #trace { margin-top: .6rem; overflow: auto }
}
</style>
"#;
