//! How each thing looks.
//!
//! The colours are Okabe and Ito's. Of two states that can be beside each other the contrast (WCAG 2, of 1 to 21) is at
//! least 3: running, black, 4.0 to ready, blue, and 15.9 to the ground of the blocked states, yellow; ready 3.9 to that
//! ground; its hatching, black, 15.9 to it. To a window's grey, #e6e6e6, and to white, running has 16.8 and 21, ready
//! 4.2 and 5.2, the marks' vermilion 3.1 and 3.9, and the edge of a window 3.6 and 4.5.

/// The classes and the hatchings.
pub(crate) const STYLE: &str = "<style>
text{font:15px sans-serif;fill:#000}
.title{font-family:monospace;font-weight:bold;font-size:17px}
.name{font-family:monospace}
.part{font-family:monospace;font-weight:bold}
.level{font-weight:bold;paint-order:stroke;stroke:#fff;stroke-width:3px}
.lane{fill:#fff;stroke:#767676}
.window{fill:#e6e6e6}
.edge{stroke:#767676;fill:none}
.narrow{fill:url(#narrow)}
.grid{stroke:#767676;stroke-width:.5;fill:none}
.plan{stroke:#000;stroke-width:2;stroke-dasharray:6 3;fill:none}
.running,.suspended,.mixed{fill:#000}
.ready{fill:#0072b2}
.mutex{fill:url(#mutex)}
.condition{fill:url(#condition)}
.relock{fill:url(#relock)}
.sleep{fill:url(#sleep)}
.join{fill:url(#join)}
.input{fill:url(#input)}
.ended{fill:url(#ended)}
.still{fill:url(#still)}
.border{stroke:#000;fill:none}
.raised{fill:#d55e00}
.lost{fill:url(#lost)}
.steps{stroke:#fff;fill:none}
.arrived{fill:#0072b2}
.dropped{stroke:#d55e00;stroke-width:2;fill:none}
.halted{stroke:#000;stroke-width:3;fill:none}
</style>
<defs>
<pattern id=\"narrow\" width=\"6\" height=\"6\" patternUnits=\"userSpaceOnUse\" patternTransform=\"rotate(45)\">\
<path d=\"M0 0v6\" stroke=\"#767676\"/></pattern>
<pattern id=\"mutex\" width=\"6\" height=\"6\" patternUnits=\"userSpaceOnUse\" patternTransform=\"rotate(45)\">\
<rect width=\"6\" height=\"6\" fill=\"#f0e442\"/><path d=\"M3 0v6\" stroke=\"#000\" stroke-width=\"1.3\"/></pattern>
<pattern id=\"condition\" width=\"6\" height=\"6\" patternUnits=\"userSpaceOnUse\" patternTransform=\"rotate(-45)\">\
<rect width=\"6\" height=\"6\" fill=\"#f0e442\"/><path d=\"M3 0v6\" stroke=\"#000\" stroke-width=\"1.3\"/></pattern>
<pattern id=\"relock\" width=\"8\" height=\"8\" patternUnits=\"userSpaceOnUse\" patternTransform=\"rotate(45)\">\
<rect width=\"8\" height=\"8\" fill=\"#f0e442\"/><path d=\"M4 0v8M0 4h8\" stroke=\"#000\"/></pattern>
<pattern id=\"sleep\" width=\"6\" height=\"5\" patternUnits=\"userSpaceOnUse\">\
<rect width=\"6\" height=\"5\" fill=\"#f0e442\"/><path d=\"M0 2.5h6\" stroke=\"#000\"/></pattern>
<pattern id=\"join\" width=\"5\" height=\"6\" patternUnits=\"userSpaceOnUse\">\
<rect width=\"5\" height=\"6\" fill=\"#f0e442\"/><path d=\"M2.5 0v6\" stroke=\"#000\"/></pattern>
<pattern id=\"input\" width=\"5\" height=\"5\" patternUnits=\"userSpaceOnUse\">\
<rect width=\"5\" height=\"5\" fill=\"#f0e442\"/><circle cx=\"2.5\" cy=\"2.5\" r=\"1.3\"/></pattern>
<pattern id=\"lost\" width=\"1\" height=\"1\">\
<path d=\"M0 1h1000M0 5h1000\" stroke=\"#d55e00\" stroke-width=\"2\"/></pattern>
<pattern id=\"ended\" width=\"1\" height=\"1\">\
<path d=\"M0 8.5h1000\" stroke=\"#000\" stroke-width=\"2\"/></pattern>
<pattern id=\"still\" width=\"1\" height=\"1\">\
<path d=\"M0 8.5h1000\" stroke=\"#000\" stroke-width=\"2\" stroke-dasharray=\"4 3\"/></pattern>
</defs>
";
