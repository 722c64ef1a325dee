//! Rows of words as the GNU assembler makes them.

use rv64_table::{Op, laws, row_at_once, row_of, rows};

/// Words as the GNU assembler makes them, with their operations.
static ASSEMBLED: [(u32, Op); 10] = [
    (0x4020_8fb3, Op::Sub),
    (0x43f3_5293, Op::Srai),
    (0x41f3_529b, Op::Sraiw),
    (0x0ff0_000f, Op::Fence),
    (0x0010_0073, Op::Ebreak),
    (0x02c5_f53b, Op::Remuw),
    (0xffff_f0b7, Op::Lui),
    (0x1600_b52f, Op::Lrd),
    (0x18d5_a62f, Op::Scw),
    (0xe4c5_a52f, Op::Amomaxuw),
];

/// Whether a word has this operation. The 22 atomic rows, whose opcode is 0x2F, are not looked for at once.
fn has_row(word: u32, want: Op) -> bool {
    row_of(word) == Some(want) && row_at_once(word).is_some() == (word & 0x7F != 0x2F)
}

/// Whether a word fits the row of this operation, which stands at its number.
fn fits_row(word: u32, want: Op) -> bool {
    let row = want.row();
    word & row.mask == row.want && rows()[want as usize] == row
}

#[test]
fn rows_of_assembled_words(rt: HostRuntime) {
    laws::no_word_matches_two_rows();
    laws::a_fitting_row_is_the_row();
    for &(word, want) in &ASSEMBLED {
        assert!(rt;
            has_row(word, want) && fits_row(word, want),
            "at {word:08x}"
        );
    }
    assert!(rt; row_of(0xffff_ffff).is_none());
    assert!(rt; row_of(0x1610_b52f).is_none());
}
