//! The parts of the page that are the same for every session.

/// What stands before the source: the head of the page, with its colours for light and dark.
pub(crate) const HEAD: &[u8] = b"<!DOCTYPE html>
<html lang='en'>
<head>
<meta charset='utf-8'>
<title>The causal history of a session</title>
<style>
:root{color-scheme:light dark;--paper:#fff;--ink:#1d1d1f;--dim:#6a6a70;--rule:#d4d4d8;--arrow:#8b1a1a;
--refused:#d4001a;--gone:#b4b4ba;--soft:68%;--fill:91%;--edge:58%}
@media (prefers-color-scheme:dark){:root{--paper:#17181b;--ink:#e8e8ea;--dim:#9a9aa2;--rule:#3a3b40;
--arrow:#e88a80;--refused:#ff4f5e;--gone:#5c5d64;--soft:34%;--fill:25%;--edge:48%}}
body{margin:0;display:flex;height:100vh;background:var(--paper);color:var(--ink);
font:11pt/1.45 ui-monospace,Menlo,Consolas,monospace}
pre{flex:none;box-sizing:border-box;max-width:42vw;margin:0;padding:8pt;overflow:auto;font:inherit;
border-right:1px solid var(--rule)}
pre b{color:var(--dim);font-weight:normal}
pre i{display:block;font-style:normal}
pre i[style]{background:hsl(var(--h) var(--soft) var(--fill))}
main{flex:1;min-width:0;display:flex;flex-direction:column}
p{margin:0;padding:8pt 8pt 0}
div{flex:1;display:flex;overflow:auto}
div>svg{flex:none;display:block}
.lanes{position:sticky;left:0;background:var(--paper)}
text{font-size:11px;fill:var(--ink)}
.at{text-anchor:end;fill:var(--dim)}
.lane{stroke:var(--rule)}
.step rect,rect.step{fill:hsl(var(--h) var(--soft) var(--fill));stroke:hsl(var(--h) var(--soft) var(--edge))}
.step.fault rect,rect.step.fault{stroke:var(--refused);stroke-width:5}
.step text:last-child{font-size:9.5px}
.races{white-space:pre-wrap;max-height:20vh;overflow:auto}
.harm{fill:none;stroke:var(--refused);stroke-width:2;stroke-dasharray:2 3}
#harm{outline:none}
.gone rect,rect.gone{fill:none;stroke:var(--gone);stroke-dasharray:3 2}
.gone text{fill:var(--dim)}
.arrow line,.refused line{stroke:var(--arrow);stroke-width:1.3;marker-end:url(#head)}
.arrow text,.refused text{fill:var(--arrow);paint-order:stroke;stroke:var(--paper);stroke-width:3px}
.refused line{stroke:var(--refused);stroke-width:2;stroke-dasharray:6 3;marker-end:url(#stop)}
.refused{transform:translate(12px,0)}
.refused text{fill:var(--refused)}
#head{fill:var(--arrow)}
#stop{fill:var(--refused)}
.small .arrow line{stroke-width:.5}
.small .arrow.own{display:none}
.small .arrow text,.small .refused text{display:none}
.arrow.own line{stroke-width:.5;stroke-opacity:.45;marker-end:none}
.arrow.own text{display:none}
.arrow:hover line{stroke-width:3}
</style>
</head>
<body>
";

/// What stands behind the number of steps above the picture.
pub(crate) const LEGEND: &[u8] =
    b" steps that stand. An arrow goes from a step to a later one of another \
worker that conflicts with it, and names the object. Those at a worker's control, as from a fork to each \
step of a new worker, are faint, and not shown among marks. Grey: taken out. Outlined in red: a step that \
met a fault. In a dotted frame: steps that race; where none do, those that met a fault. Red, broken: an undo that was refused.";

/// What stands behind the legend of a page with many steps.
pub(crate) const FEWER: &[u8] =
    b" So many steps are slow to open and hard to survey, and all of them are \
here. A shorter session draws fewer, and so do `undo` and `roll`.";

/// What ends the words above the picture.
pub(crate) const WORDS_END: &[u8] = b"</p>\n";

/// What stands in the picture before its lanes: the heads of arrows.
pub(crate) const HEADS: &[u8] = b"<defs><marker id='head' viewBox='0 0 8 8' refX='8' refY='4' \
markerWidth='6' markerHeight='6' orient='auto'><path d='M0 0L8 4L0 8z'/></marker>\
<marker id='stop' viewBox='0 0 8 8' refX='8' refY='4' markerWidth='5' markerHeight='5' \
orient='auto'><path d='M0 0L8 4L0 8z'/></marker></defs>\n";

/// What stands behind the picture: the end of the page.
pub(crate) const FOOT: &[u8] = b"</svg>\n</div>\n</main>\n</body>\n</html>\n";
