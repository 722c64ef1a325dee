//! What a true report accounts for. The lines were written down from docs/reference/provenance.md and the report of the worked audit.

use crate::audits::REPORT;
use crate::scenes::{Step, over_worked};
use ddc_app::Status;
use std::test::Fail;

/// The audited binary is a file of its own build.
const LINES: &str = "yes\n\
    recipe 10b5c639797a4ed2505e4f5394bd88f134e66af1f274d9342e720cc0e4379e08\n\
    equal two bin 3 ba7816bf8f01cfea414140de5dae2223b00361a396177a9cb410ff61f20015ad\n\
    text text 465 26dbf873fd9f4ae0d6145fe4fcf057357e6d57dc16dc89160bbefa88806e89d5\n\
    text src 3 ba7816bf8f01cfea414140de5dae2223b00361a396177a9cb410ff61f20015ad\n\
    run two\n\
    audited read src\n";

static ACCOUNTED: [Step; 3] = [
    Step::Set("r", REPORT),
    Step::Run(&["provenance", "a.toml", "r"], Status::Yes, LINES),
    Step::Called(&[
        ("a.toml", Some(1_048_576)),
        ("r", Some(1_073_741_824)),
        ("copy.elf", Some(268_435_456)),
        ("copy.hex0", Some(268_435_456)),
        ("a.bin", Some(268_435_456)),
        ("b.bin", Some(268_435_456)),
    ]),
];

#[test]
fn a_true_report_is_accounted_for(rt: HostRuntime) -> Result<(), Fail> {
    over_worked(&rt, rt.alloc(), &ACCOUNTED)?;
    Ok(())
}

static WORDS: [Step; 3] = [
    Step::Usage(&[
        &["provenance"],
        &["provenance", "a.toml"],
        &["provenance", "a.toml", "r", "r"],
        &["provenance", "a.toml", "./a.toml"],
        &["provenance", "a.toml", "b.bin"],
    ]),
    Step::Run(
        &["provenance", "a.toml", "r"],
        Status::FileRefused,
        "file refused r absent\n",
    ),
    Step::Run(
        &["provenance", "a.bin", "r"],
        Status::RecipeRefused,
        "recipe refused 1\n",
    ),
];

#[test]
fn the_words_of_provenance_are_judged(rt: HostRuntime) -> Result<(), Fail> {
    over_worked(&rt, rt.alloc(), &WORDS)?;
    Ok(())
}
