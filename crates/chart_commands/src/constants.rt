//! The parts of a chart that are the same in every one.

/// The style of a chart, which stands in its `style` element: the colours of each class, on a light and on a dark page.
pub(crate) const STYLE: &[u8] = b"
svg{font:12px Menlo,Consolas,monospace;color:#1f2328}
text{fill:currentColor}
path{fill:none;stroke:currentColor;stroke-width:2}
rect{fill:none;pointer-events:all}
g:nth-of-type(2n) rect{fill:#8c959f;fill-opacity:.08}
.page{fill:#fff}
.name{font-size:16px;font-weight:bold}
.number{fill:#59636e;text-anchor:end}
.up{stroke:#8c959f}
.down{stroke:#8f0a1e;stroke-opacity:.5;stroke-width:20;stroke-dasharray:2 3}
.wait{stroke:#80b4f0}
.sent,.taken{color:#0969da}
.failed,.refused,.forged{color:#8f0a1e}
.cut,.armed{color:#8a4600}
.nothing{color:#59636e}
.sent path,.done path,.refused path,.cut path,.armed path,.nothing path{fill:currentColor;stroke:#fff}
.refused path,.armed path{stroke-width:3}
.forged path{stroke-width:4}
g.failed rect,g.forged rect{fill:#f00;fill-opacity:.12}
g.cut rect{fill:#f90;fill-opacity:.2}
g:hover rect{fill:currentColor;fill-opacity:.2}
g.head rect{fill:#eaeef2;fill-opacity:1;stroke:#8c959f}
.head text{font-weight:bold;text-anchor:middle}
@media(prefers-color-scheme:dark){
svg{color:#e6edf3}
.page{fill:#0d1117}
.number{fill:#9198a1}
.up{stroke:#656c76}
.down{stroke:#ff968e}
.wait{stroke:#2a5a9e}
.sent,.taken{color:#539bf5}
.failed,.refused,.forged{color:#ff968e}
.cut,.armed{color:#f0b429}
.nothing{color:#9198a1}
.sent path,.done path,.refused path,.cut path,.armed path,.nothing path{stroke:#0d1117}
g.head rect{fill:#262c36;stroke:#656c76}
}
";

/// The legend of a chart, one kind of mark a line.
pub(crate) const LEGEND: &[u8] =
    b"<g class=\"sent\"><path d=\"M24 72m-7 0a7 7 0 1 0 14 0a7 7 0 1 0-14 0z\"/><text x=\"38\" y=\"76\">sent</text></g>
<g class=\"taken\"><path d=\"M84 72h28m-8-5l8 5l-8 5\"/><text x=\"120\" y=\"76\">accepted</text></g>
<g class=\"failed\"><path d=\"M196 72h22m-6-6l12 12m0-12l-12 12\"/><text x=\"232\" y=\"76\">verdict failed</text></g>
<g><path d=\"M354 66v12\"/><path d=\"M354 72h28m-8-5l8 5l-8 5\"/><text x=\"390\" y=\"76\">from outside</text></g>
<g class=\"refused\"><path d=\"M504 72m-9 0a9 9 0 1 0 18 0a9 9 0 1 0-18 0m4 0h10\"/><text x=\"518\" y=\"76\">refused</text></g>
<g class=\"cut\"><path d=\"M596 72m5-14l-14 16h6l-4 12l14-16h-6z\"/><text x=\"610\" y=\"76\">power cut</text></g>
<path class=\"down\" d=\"M702 60V84\"/><text x=\"718\" y=\"76\">down</text>
";
