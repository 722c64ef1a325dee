//! Recipes, each with the lines of its assumptions.

/// Inputs and sources of each language. `$` stands for the keys that every stage has alike.
pub(crate) const LEADING: &str = r#"format = 1
input = [
    { name = "text", path = "text" },
    { name = "seed", path = "seed", implements = "zero" },
    { name = "tool", path = "tool", implements = "other" },
    { name = "spare", path = "spare", implements = "zero" },
    { name = "want", path = "want" },
]
source = [
    { name = "zero", lang = "hex0", files = ["text"] },
    { name = "one", lang = "hex1", files = ["text"] },
    { name = "two", lang = "hex2", files = ["text"] },
    { name = "words", lang = "m1", files = ["text"] },
    { name = "other", lang = "other", files = ["text"] },
]
compare = { stage = "a", binary = "want" }
"#;

/// What `$` stands for.
pub(crate) const KEYS: &str = r#"args = ["x"], output = "-", steps = 1"#;

/// Stages, and the lines.
type Row = (&'static str, &'static str);

/// Inputs: an input has a line where an unchecked stage runs it, and only one line; the lines have the order of the inputs.
pub(crate) static INPUTS: [Row; 6] = [
    (r#"{ name = "a", program = "seed", $, check = "zero" }"#, ""),
    (
        r#"{ name = "a", program = "seed", $ }"#,
        "implements seed zero\n",
    ),
    (
        r#"{ name = "a", program = "seed", $ }, { name = "b", program = "seed", $ }"#,
        "implements seed zero\n",
    ),
    (
        r#"{ name = "a", program = "tool", $ }, { name = "b", program = "seed", $ }"#,
        "implements seed zero\nimplements tool other\n",
    ),
    (
        r#"{ name = "a", program = "tool", $, check = "words" }, { name = "b", program = "seed", $ }"#,
        "implements seed zero\n",
    ),
    (
        r#"{ name = "a", program = "text", $, check = "one" }, { name = "b", program = "tool", $, check = "two" }"#,
        "",
    ),
];

/// Checked stages that an unchecked one runs.
pub(crate) static CHECKED: [Row; 10] = [
    (
        r#"{ name = "a", program = "seed", $, check = "zero" }, { name = "b", program = "a", $ }"#,
        "",
    ),
    (
        r#"{ name = "a", program = "text", $, check = "one" }, { name = "b", program = "a", $ }"#,
        "",
    ),
    (
        r#"{ name = "a", program = "text", $, check = "two" }, { name = "b", program = "a", $ }, { name = "c", program = "a", $ }"#,
        "",
    ),
    (
        r#"{ name = "a", program = "text", $, check = "one", becomes = "one" }, { name = "b", program = "a", $ }"#,
        "",
    ),
    (
        r#"{ name = "a", program = "text", $, check = "one", becomes = "two" }, { name = "b", program = "a", $ }"#,
        "implements a two\n",
    ),
    (
        r#"{ name = "a", program = "text", $, check = "zero", becomes = "other" }, { name = "b", program = "a", $ }, { name = "c", program = "a", $ }"#,
        "implements a other\n",
    ),
    (
        r#"{ name = "a", program = "text", $, check = "words", becomes = "words" }, { name = "b", program = "a", $ }"#,
        "implements a words\n",
    ),
    (
        r#"{ name = "a", program = "text", $, check = "words", becomes = "zero" }, { name = "b", program = "a", $ }"#,
        "implements a zero\n",
    ),
    (
        r#"{ name = "a", program = "text", $, check = "words", becomes = "zero" }, { name = "b", program = "a", $, check = "one" }"#,
        "",
    ),
    (
        r#"{ name = "a", program = "seed", $, check = "zero" }, { name = "b", program = "a", $, check = "one" }, { name = "c", program = "b", $ }"#,
        "",
    ),
];

/// Unchecked stages that an unchecked one runs.
pub(crate) static UNCHECKED: [Row; 7] = [
    (
        r#"{ name = "a", program = "seed", $, becomes = "other" }"#,
        "implements seed zero\n",
    ),
    (
        r#"{ name = "a", program = "seed", $, becomes = "other" }, { name = "b", program = "a", $ }"#,
        "implements seed zero\ncompiles zero a other\n",
    ),
    (
        r#"{ name = "a", program = "seed", $, becomes = "other" }, { name = "b", program = "a", $, becomes = "words" }, { name = "c", program = "b", $ }"#,
        "implements seed zero\ncompiles zero a other\ncompiles other b words\n",
    ),
    (
        r#"{ name = "a", program = "seed", $, becomes = "one" }, { name = "b", program = "a", $ }, { name = "c", program = "a", $ }, { name = "d", program = "tool", $ }"#,
        "implements seed zero\nimplements tool other\ncompiles zero a one\n",
    ),
    (
        r#"{ name = "a", program = "seed", $, becomes = "other" }, { name = "b", program = "a", $, check = "zero" }, { name = "c", program = "b", $ }"#,
        "implements seed zero\n",
    ),
    (
        r#"{ name = "a", program = "text", $, check = "two" }, { name = "b", program = "a", $, becomes = "two" }, { name = "c", program = "b", $ }"#,
        "compiles two b two\n",
    ),
    (
        r#"{ name = "a", program = "text", $, check = "words", becomes = "words" }, { name = "b", program = "a", $, becomes = "other" }, { name = "c", program = "b", $ }"#,
        "implements a words\ncompiles words b other\n",
    ),
];
