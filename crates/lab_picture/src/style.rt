//! How the parts of a picture look.

use crate::escape::append_text;
use crate::shapes::{At, cross, fitted_text, line, rectangle, text};
use kernel_data::NoMemory;
use text_words::{append, append_with};

/// How the classes look, on light and on dark paper. The colours are those of Okabe and Ito, which
/// colour-blind eyes tell apart; what is dropped, refused or waits has a mark or a hatching besides.
const STYLE: &[u8] = b"<style>
svg{--paper:#fff;--ink:#222;--pale:#666;--rule:#ccc;--blue:#0072b2;--red:#b03a00;--cross:#d55e00}
@media (prefers-color-scheme:dark){svg{--paper:#15191d;--ink:#e6e6e6;--pale:#a5adb5;--rule:#434b53;--blue:#6cc0f5;--red:#ff9d66;--cross:#ff7f2a}}
text{font:11px 'DejaVu Sans',Verdana,sans-serif;fill:var(--ink)}
.paper{fill:var(--paper)}
.title{font-size:13px;font-weight:bold}
.name{font-weight:bold}
.event{font-size:10px;fill:var(--pale);text-anchor:middle}
.note{font-size:10px;fill:var(--pale);text-anchor:middle}
.clock{font-size:10px;font-weight:bold;fill:var(--blue);text-anchor:middle}
.result{font-size:10px;paint-order:stroke;stroke:var(--paper);stroke-width:3px}
.result-left{font-size:10px;text-anchor:end;paint-order:stroke;stroke:var(--paper);stroke-width:3px}
.inside{fill:#222;paint-order:stroke;stroke:#cfe8f7;stroke-width:3px}
.graft{font-size:10px;fill:#222}
.code{font-size:10px;font-weight:bold;fill:var(--red);text-anchor:middle;paint-order:stroke;stroke:var(--paper);stroke-width:3px}
.object{font-size:10px;fill:var(--blue);paint-order:stroke;stroke:var(--paper);stroke-width:3px}
.object-left{font-size:10px;fill:var(--blue);text-anchor:end;paint-order:stroke;stroke:var(--paper);stroke-width:3px}
.told{font-size:10px;fill:var(--pale)}
.back{font-size:10px;fill:var(--red);paint-order:stroke;stroke:var(--paper);stroke-width:3px}
.lane{stroke:var(--rule)}
.tick{stroke:var(--blue);stroke-dasharray:2 3;opacity:.6}
.call{fill:#a9d6f2;stroke:#1b6a99}
.refused{fill:var(--paper);stroke:var(--pale);stroke-dasharray:3 2}
.wait{fill:url(#hatched);stroke:#1b6a99}
.level1{fill:#f5c463;stroke:#8a5f00}
.level2{fill:#8fd3bd;stroke:#00694e}
.level3{fill:#eab7d2;stroke:#8c3f68}
.level4{fill:#f4ec96;stroke:#857c00}
.dropped{fill:#f3b48e;stroke:#d55e00;stroke-width:2}
.disc{fill:var(--paper);stroke:var(--cross);stroke-width:2}
.cross{stroke:var(--cross);stroke-width:2.5}
.waits{stroke:var(--blue);stroke-width:1.5;marker-end:url(#to)}
.undo{stroke:var(--cross);stroke-dasharray:4 2;marker-end:url(#back)}
.to{fill:var(--blue)}
.end{fill:var(--cross)}
</style>
<defs>
<pattern id=\"hatched\" width=\"6\" height=\"6\" patternUnits=\"userSpaceOnUse\" patternTransform=\"rotate(45)\"><rect width=\"6\" height=\"6\" fill=\"#fff\"/><line x1=\"0\" y1=\"0\" x2=\"0\" y2=\"6\" stroke=\"#0072b2\" stroke-width=\"3\"/></pattern>
<marker id=\"to\" viewBox=\"0 0 8 8\" refX=\"7\" refY=\"4\" markerWidth=\"7\" markerHeight=\"7\" orient=\"auto\"><path class=\"to\" d=\"M0 0L8 4L0 8z\"/></marker>
<marker id=\"back\" viewBox=\"0 0 8 8\" refX=\"7\" refY=\"4\" markerWidth=\"7\" markerHeight=\"7\" orient=\"auto\"><path class=\"end\" d=\"M0 0L8 4L0 8z\"/></marker>
</defs>
<rect class=\"paper\" x=\"0\" y=\"0\" width=\"1000\" height=\"100%\"/>
";

/// The most signs of a title.
const TITLE_SIGNS: usize = 118;

/// The beginning of a picture of this height, with its title.
pub fn begin_picture(out: &mut Vec<u8>, height: u32, title: &[u8]) -> Result<(), NoMemory> {
    append(
        out,
        b"<svg xmlns=\"http://www.w3.org/2000/svg\" role=\"img\" width=\"1000\" height=\"",
    )?;
    append_with(out, b"", height)?;
    append_with(out, b"\" viewBox=\"0 0 1000 ", height)?;
    append(out, b"\">\n<title>")?;
    append_text(out, title)?;
    append(out, b"</title>\n")?;
    append(out, STYLE)?;
    fitted_text(out, b"title", At { x: 8, y: 20 }, title, TITLE_SIGNS)
}

/// A sample of a bar, and what it stands for.
fn explain_bar(out: &mut Vec<u8>, x: u32, class: &[u8], said: &[u8]) -> Result<(), NoMemory> {
    rectangle(out, class, At { x, y: 34 }, 26, 12)?;
    text(
        out,
        b"result",
        At {
            x: x.saturating_add(31),
            y: 44,
        },
        said,
    )
}

/// What the signs of the picture mean.
pub fn explain(out: &mut Vec<u8>) -> Result<(), NoMemory> {
    explain_bar(out, 8, b"call", b"a call")?;
    explain_bar(out, 84, b"refused", b"refused")?;
    explain_bar(out, 172, b"wait", b"waits, for whom")?;
    explain_bar(out, 300, b"level1", b"a graft runs: its process and point")?;
    explain_bar(out, 546, b"level2", b"one that it asked")?;
    cross(out, At { x: 706, y: 40 })?;
    text(out, b"result", At { x: 720, y: 44 }, b"dropped, and why")?;
    line(out, b"undo", At { x: 824, y: 40 }, At { x: 848, y: 40 })?;
    text(out, b"result", At { x: 853, y: 44 }, b"put back")?;
    line(out, b"tick", At { x: 916, y: 34 }, At { x: 916, y: 46 })?;
    text(out, b"result", At { x: 922, y: 44 }, b"a tick")
}
