// What a page has between its title and its lines.

/// The bar with the title, the line and its trace, and three panels.
pub const BODY: &str = r#"<header>
<h1 id="title"></h1>
<button id="first" aria-label="first line">|&lt;</button>
<button id="back" aria-label="line before">&lt;</button>
<button id="on" aria-label="next line">&gt;</button>
<button id="last" aria-label="last line">&gt;|</button>
<input id="slider" type="range" min="0" value="0" aria-label="line">
<output id="place"></output>
<button id="dark" aria-label="light or dark">d</button>
<button id="ask" aria-label="keys and marks">?</button>
</header>
<noscript><p>This page shows one line at a time by JavaScript, which is off.</p></noscript>
<div id="top">
<div id="lines" aria-live="polite"></div>
<div id="trace" tabindex="0"></div>
</div>
<main>
<section class="panel" id="processes" aria-label="processes" tabindex="0"></section>
<section class="panel" id="tables" aria-label="TLB and page tables" tabindex="0"></section>
<section class="panel" id="frames" aria-label="frames and files" tabindex="0"></section>
</main>
<div id="help" hidden>
<b>PageDown, Space</b><span>the next answer; as a presenter's remote</span>
<b>PageUp</b><span>the answer before</span>
<b>Right, Left</b><span>one line on or back; Home, End</span>
<b>d</b><span>light or dark</span>
<b>+, -</b><span>larger or smaller</span>
<b>a</b><span>all rows, each frame in its own, with scroll bars</span>
<b>0:0x1000</b><span>the page at 0x1000 of process 0</span>
<b>→ 0x80014</b><span>in the frame with this physical page number</span>
<b>0x80014..0x80033</b><span>frames in a row, which have pages in a row</span>
<b>×2</b><span>the frame has two references</span>
<b>C, D</b><span>copy-on-write; stored to, so written back to its file</span>
<b>▶</b><span>the walk of the line read this entry</span>
</div>
"#;
