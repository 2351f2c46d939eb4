// What words ask for.

use image_options::{Asked, Form, Wrong, words_ask};
use option_parser::Wrong as Line;
use std::alloc::{AllocError, Global};
use std::test::Fail;

// A word more.
fn add(alloc: Global, words: &mut Vec<String>, word: &str) -> Result<(), AllocError> {
    let mut text = String::new(alloc);
    text.push_str(word)?;
    words.push(text)?;
    Ok(())
}

// The words of a line, with a program's name before them.
fn words(alloc: Global, line: &str) -> Result<Vec<String>, AllocError> {
    let mut words = Vec::new(alloc);
    add(alloc, &mut words, "lochknife")?;
    for word in line.split(' ') {
        add(alloc, &mut words, word)?;
    }
    Ok(words)
}

// A line of words, and what they ask for, or which is wrong.
type Row = (&'static str, Result<Asked<'static>, Wrong<'static>>);

const ROWS: [Row; 39] = [
    ("--help", Ok(Asked::Help)),
    ("show -h", Ok(Asked::HelpOf { command: "show" })),
    ("-V", Ok(Asked::Version)),
    (
        "show c --json",
        Ok(Asked::Show {
            cow: "c",
            form: Form::Json,
        }),
    ),
    (
        "--json show c",
        Ok(Asked::Show {
            cow: "c",
            form: Form::Json,
        }),
    ),
    (
        "map --raw c --json",
        Ok(Asked::RawMap {
            cow: "c",
            form: Form::Json,
        }),
    ),
    (
        "map c --json",
        Ok(Asked::Map {
            cow: "c",
            form: Form::Json,
        }),
    ),
    (
        "check --json o c",
        Ok(Asked::Check {
            origin: "o",
            cow: "c",
            form: Form::Json,
        }),
    ),
    (
        "merge o --json c --dry-run",
        Ok(Asked::Merge {
            origin: "o",
            cow: "c",
            dry: true,
            form: Form::Json,
        }),
    ),
    (
        "map c --json --over=o",
        Ok(Asked::Ranges {
            origin: "o",
            cow: "c",
            form: Form::Json,
        }),
    ),
    (
        "map --over o c --svg d.svg",
        Ok(Asked::Picture {
            origin: "o",
            cow: "c",
            svg: Some("d.svg"),
        }),
    ),
    ("map c --svg d.svg", Err(Wrong::Without("--svg", "--over"))),
    (
        "compare o c --json",
        Ok(Asked::Compare {
            one: "o",
            other: "c",
            form: Form::Json,
        }),
    ),
    (
        "table o c",
        Ok(Asked::Table {
            origin: "o",
            cow: "c",
        }),
    ),
    ("show c --human", Ok(Asked::Human { cow: "c" })),
    ("help", Ok(Asked::Help)),
    ("help nbd", Ok(Asked::HelpOf { command: "nbd" })),
    (
        "map -- --raw",
        Ok(Asked::Map {
            cow: "--raw",
            form: Form::Lines,
        }),
    ),
    ("map c --json=1", Err(Wrong::Line(Line::Option("--json=1")))),
    (
        "check o c",
        Ok(Asked::Check {
            origin: "o",
            cow: "c",
            form: Form::Lines,
        }),
    ),
    (
        "rollback o c -",
        Ok(Asked::Export {
            origin: "o",
            cow: "c",
            out: "-",
            form: Form::Lines,
        }),
    ),
    (
        "export --behind o --chunk 8 c --salvage - --json",
        Ok(Asked::Salvage {
            origin: "o",
            cow: "c",
            out: "-",
            chunk: Some(8),
            behind: true,
            form: Form::Json,
        }),
    ),
    (
        "--chunk=8 --salvage export o c - --behind",
        Ok(Asked::Salvage {
            origin: "o",
            cow: "c",
            out: "-",
            chunk: Some(8),
            behind: true,
            form: Form::Lines,
        }),
    ),
    (
        "words disk -",
        Ok(Asked::Words {
            disk: "disk",
            image: "-",
        }),
    ),
    ("image -- --json", Ok(Asked::Image { out: "--json" })),
    ("words 9 c", Err(Wrong::Disk("9"))),
    ("words disk", Err(Wrong::Line(Line::Missing("IMAGE")))),
    ("words disk c d", Err(Wrong::Line(Line::Name("d")))),
    ("image", Err(Wrong::Line(Line::Missing("OUT")))),
    ("image - --json", Err(Wrong::Line(Line::Option("--json")))),
    ("nbd o c --json", Err(Wrong::Line(Line::Option("--json")))),
    ("shew c", Err(Wrong::Line(Line::Command("shew")))),
    ("show", Err(Wrong::Line(Line::Missing("COW")))),
    ("show c d", Err(Wrong::Line(Line::Name("d")))),
    ("show c --raw", Err(Wrong::Line(Line::Option("--raw")))),
    (
        "check o c --chunk 8",
        Err(Wrong::Line(Line::Option("--chunk"))),
    ),
    ("export o c - --chunk 8", Err(Wrong::Alone("--chunk"))),
    ("export o c - --salvage --chunk 9", Err(Wrong::Chunk("9"))),
    ("export --chunk", Err(Wrong::Line(Line::NoValue("--chunk")))),
];

#[test]
fn words_are_asked_in_any_place(rt: HostRuntime) -> Result<(), Fail> {
    for (line, wanted) in ROWS {
        let words = words(rt.alloc(), line)?;
        let asked = words_ask(rt.alloc(), &words);
        assert!(rt; asked == wanted, "{line}");
    }
    Ok(())
}
