//! The styles of a picture, and the legend of its signs.

use crate::sign::Sign;
use std::alloc::{AllocError, Global};

/// The least width of a page, so that the legend has room.
pub const LEGEND_WIDTH: usize = 900;
/// The height of the legend.
pub const LEGEND_HEIGHT: usize = 132;

/// How many signs a row has.
const IN_ROW: usize = 4;
/// The distance from a sign to the next in its row, and from a row to the next.
const CELL: (usize, usize) = (222, 24);
/// Where the first sign is.
const CORNER: (usize, usize) = (12, 20);

/// Styles, arrow heads, the pattern of replayed calls, and the shapes of marks.
pub const STYLE: &str = "<style>
text{font:11px Helvetica,Arial,'DejaVu Sans',sans-serif;fill:#222}
line,path{fill:none;stroke:#444}
.t,.s,.c,.r,.b,.more{paint-order:stroke;stroke:#fff;stroke-width:3px;stroke-linejoin:round}
.t,.s,.c,.r,.b,.place{text-anchor:middle;font-size:10px}
.s{fill:#00654a;font-weight:bold}.c{fill:#a33d00;font-weight:bold}.r{fill:#7a5200}.b{fill:#0b4f7d;font-size:9px}
.place{fill:#777;font-size:9px}.name{font-size:12px;font-weight:bold}.more{font-weight:bold;fill:#666;stroke-width:6px}
.j{font-size:9px}
.column{stroke:#eee}.no{stroke:#d55e00;stroke-dasharray:2 5}.row{font-size:9px;fill:#777}
.up{stroke-width:1.5}.down{stroke:#888;stroke-dasharray:1 5}.back{stroke:#e69f00;stroke-width:4}
.call{fill:#dcebf7;stroke:#0072b2}.again{fill:url(#stripes);stroke:#a86f00}
.message{stroke:#0072b2;stroke-width:1.8;marker-end:url(#m)}
.out{stroke:#009e73;stroke-width:3;marker-end:url(#o)}
.number{stroke:#555;stroke-dasharray:6 3;marker-end:url(#n)}
.ack{stroke:#555;stroke-dasharray:1.5 3;marker-end:url(#n)}
.sync{stroke:#a86f00;stroke-width:1.5;stroke-dasharray:2 2;marker-end:url(#r)}
.cut{marker-end:none}
</style>
<defs>
<marker id='m' viewBox='0 0 8 8' refX='8' refY='4' markerWidth='9' markerHeight='9' markerUnits='userSpaceOnUse' orient='auto'><path d='M0 0.5L8 4L0 7.5Z' style='fill:#0072b2;stroke:none'/></marker>
<marker id='o' viewBox='0 0 8 8' refX='8' refY='4' markerWidth='12' markerHeight='12' markerUnits='userSpaceOnUse' orient='auto'><path d='M0 0.5L8 4L0 7.5Z' style='fill:#009e73;stroke:none'/></marker>
<marker id='n' viewBox='0 0 8 8' refX='8' refY='4' markerWidth='7' markerHeight='7' markerUnits='userSpaceOnUse' orient='auto'><path d='M0 0.5L8 4L0 7.5' style='stroke:#555'/></marker>
<marker id='r' viewBox='0 0 8 8' refX='8' refY='4' markerWidth='8' markerHeight='8' markerUnits='userSpaceOnUse' orient='auto'><path d='M0 0.5L8 4L0 7.5Z' style='fill:#a86f00;stroke:none'/></marker>
<pattern id='stripes' width='6' height='6' patternUnits='userSpaceOnUse' patternTransform='rotate(45)'><rect width='6' height='6' fill='#fff4dc'/><rect width='2' height='6' fill='#f6cf87'/></pattern>
<path id='lost' d='M-5 -5L5 5M-5 5L5 -5' style='stroke:#222;stroke-width:2'/>
<path id='crash' d='M-7 -7L7 7M-7 7L7 -7' style='stroke:#d55e00;stroke-width:3.5'/>
<path id='recover' d='M-5 -7L7 0L-5 7Z' style='fill:#e69f00;stroke:#7a5200'/>
<path id='saved' d='M-5 -5H5V5H-5Z' style='fill:#cc79a7;stroke:#222'/>
<path id='trim' d='M-5 -5H5V5H-5Z' style='fill:#fff;stroke:#222'/>
<circle id='input' r='4' style='fill:#fff;stroke:#0072b2;stroke-width:2'/>
<circle id='shown' r='4.5' style='fill:#009e73;stroke:#fff'/>
<circle id='copy' r='4' style='fill:#fff;stroke:#222'/>
<path id='refused' d='M-5 0A5 5 0 1 1 5 0A5 5 0 1 1 -5 0ZM-3.5 3.5L3.5 -3.5' style='fill:#fff;stroke:#a33d00;stroke-width:2'/>
</defs>
";

/// The signs that a picture has.
#[derive(Drop)]
pub struct Legend {
    signs: Vec<Sign>,
}

impl Legend {
    /// A legend without signs.
    pub(crate) fn new(alloc: Global) -> Legend {
        Legend {
            signs: Vec::new(alloc),
        }
    }

    /// Adds a sign to the legend.
    pub(crate) fn note(&mut self, sign: Sign) -> Result<(), AllocError> {
        if !self.signs.contains(&sign) {
            self.signs.push(sign)?;
        }
        Ok(())
    }

    /// Whether the picture has this sign.
    pub(crate) fn has(&self, sign: Sign) -> bool {
        self.signs.contains(&sign)
    }

    /// All signs of the picture, each with its words.
    pub(crate) fn text(&self, alloc: Global) -> Result<String, AllocError> {
        let mut out = String::new(alloc);
        let shown = Sign::ALL.iter().filter(|sign| self.signs.contains(sign));
        for (place, sign) in shown.enumerate() {
            push_sign(&mut out, place, *sign)?;
        }
        Ok(out)
    }
}

/// Writes a sign and its words.
fn push_sign(out: &mut String, place: usize, sign: Sign) -> Result<(), AllocError> {
    let x = CORNER.0.saturating_add((place % IN_ROW) * CELL.0);
    let y = CORNER
        .1
        .saturating_add((place / IN_ROW).saturating_mul(CELL.1));
    let (sample, words) = (sign.sample(), sign.words());
    writeln!(
        out,
        "<g transform='translate({x} {y})'>{sample}<text x='42' y='4'>{words}</text></g>"
    )
}
