// How things look. The two colours of an edit can be told apart by the colour-blind too, and what is gone
// is dashed besides.

/// What both kinds of picture have, before anything is drawn.
const COMMON: &str = "<style>
path{fill:#d9d4b8;fill-opacity:.5;stroke:#555;fill-rule:evenodd;stroke-linejoin:round}
path.kept{stroke:#999}
path.changed{fill:#f2b800;stroke:#999}
path.lost{fill:#d55e00;fill-opacity:.25;stroke:none}
path.gone,path.conflict{fill:none;stroke:#d55e00}
path.new{fill:none;stroke:#0072b2}
path.named{fill:none;stroke:#222}
path.bar{fill:none;stroke:#222}
rect.gap{fill:#dcecf5}
circle{fill:none;stroke:#d55e00;stroke-width:2}
text{font-family:sans-serif;font-size:13px;fill:#222}
text.name{font-size:11px;text-anchor:middle;paint-order:stroke;stroke:#fff;stroke-width:3px}
text.number{text-anchor:end;font-size:12px}
text.head{font-weight:bold}
text.gone{fill:#a84a00}
text.new{fill:#005a8c}
</style>
<rect width=\"100%\" height=\"100%\" fill=\"#fff\"/>
";

/// The style sheet and the background.
pub(crate) fn prelude() -> &'static str {
    COMMON
}
