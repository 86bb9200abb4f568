// `put_picture`: a picture of a machine, as SVG.

ghost use Rattle.hart_machine.specs.BufferEntries.{IsInWorld};
ghost use Rattle.process_model.specs.World.{World};

use crate::cells::WIDTH;
use crate::frames::put_frames;
use crate::harts::put_hart;
use crate::legend::put_legend;
use crate::processes::put_process;
use hart_machine::Machine;
use std::alloc::AllocError;
use text_builder::Text;

/// How the parts of a picture look. Shared, guard, free and folded cells differ by the stroke too, for readers without colour.
const STYLE: &str = "<style>
text { font: 12px ui-monospace, Menlo, Consolas, monospace; fill: #111 }
.second { font-size: 11px; fill: #333 }
.head text { font-weight: bold }
.cell rect { fill: #fff; stroke: #444 }
.head rect { fill: #e4e4e4; stroke: none }
.shared rect { fill: #ffe08a; stroke: #7a5b00; stroke-width: 2.5 }
.guard rect { fill: #f3d6d6; stroke: #a33; stroke-dasharray: 2 2 }
.table rect { fill: #d8e8f8; stroke: #346 }
.kernel rect { fill: #e8e8e8; stroke: #444 }
.free rect, .folded rect { fill: none; stroke: #999; stroke-dasharray: 5 3 }
.free text { fill: #666 }
.changed rect { stroke: #c2185b; stroke-width: 4; stroke-dasharray: none }
</style>
";

/// Puts the parts of a picture, and returns the height below them.
fn put_parts(out: &mut Text, machine: &Machine) -> u64
    requires world { (w : World) × IsInWorld machine.now w }
{
    let mut y = 0;
    for hart in 0..machine.hart_count() {
        y = put_hart(out, machine, hart, y);
    }
    for slot in 0..machine.slot_count() {
        y = put_process(out, machine, slot, y);
    }
    y = put_frames(out, machine, y);
    put_legend(out, y)
}

/// Puts a picture of a machine, as SVG 1.1.
pub fn put_picture(out: &mut Text, machine: &Machine)
    requires world { (w : World) × IsInWorld machine.now w }
{
    let mut parts = Text::new(out.allocator());
    let height = put_parts(&mut parts, machine);
    writeln!(
        out,
        "<svg xmlns=\"http://www.w3.org/2000/svg\" viewBox=\"0 0 {WIDTH} {height}\" width=\"{WIDTH}\" height=\"{height}\">"
    );
    out.push_str(STYLE);
    out.push_str("<rect width=\"100%\" height=\"100%\" fill=\"#fff\"/>\n");
    match parts.finish() {
        Ok(parts) => out.push_str(parts.as_str()),
        Err(_) => out.note(Err(AllocError)),
    }
    out.push_str("</svg>\n");
}
