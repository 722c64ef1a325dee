//! Words with the texts that the GNU assembler and objdump give them; tests/instructions/expected.py makes both tables.

use rv64_decode::{Inst, decode, encode, laws, print};
use std::process::Abort;

/// Where the first word of the table stands: the addresses pass 2^64 - 1.
const START: u64 = 0xffff_ffff_ffff_ff80;

static ROWS: [(u32, &str); 114] = [
    (0x00012537, "lui x10, 00012"),
    (0xffffff97, "auipc x31, fffff"),
    (0x000010ef, "jal x1, 0000000000000f88"),
    (0xffc280e7, "jalr x1, -4(x5)"),
    (0x00208863, "beq x1, x2, ffffffffffffffa0"),
    (0xfe4198e3, "bne x3, x4, ffffffffffffff84"),
    (0x7e62cfe3, "blt x5, x6, 0000000000000f96"),
    (0x8083d063, "bge x7, x8, ffffffffffffef9c"),
    (0x00a4e0e3, "bltu x9, x10, 00000000000007a0"),
    (0xfec5ffe3, "bgeu x11, x12, ffffffffffffffa2"),
    (0x00010083, "lb x1, 0(x2)"),
    (0x00221183, "lh x3, 2(x4)"),
    (0xffc32283, "lw x5, -4(x6)"),
    (0x00843383, "ld x7, 8(x8)"),
    (0x7ff54483, "lbu x9, 2047(x10)"),
    (0x80065583, "lhu x11, -2048(x12)"),
    (0x01076683, "lwu x13, 16(x14)"),
    (0x001100a3, "sb x1, 1(x2)"),
    (0xfe321f23, "sh x3, -2(x4)"),
    (0x7e532fa3, "sw x5, 2047(x6)"),
    (0x80743023, "sd x7, -2048(x8)"),
    (0xffb10093, "addi x1, x2, -5"),
    (0x7ff22193, "slti x3, x4, 2047"),
    (0x80033293, "sltiu x5, x6, -2048"),
    (0xfff44393, "xori x7, x8, -1"),
    (0x00156493, "ori x9, x10, 1"),
    (0x0ff67593, "andi x11, x12, 255"),
    (0x03f71693, "slli x13, x14, 63"),
    (0x02085793, "srli x15, x16, 32"),
    (0x42195893, "srai x17, x18, 33"),
    (0x003100b3, "add x1, x2, x3"),
    (0x40628233, "sub x4, x5, x6"),
    (0x009413b3, "sll x7, x8, x9"),
    (0x00c5a533, "slt x10, x11, x12"),
    (0x00f736b3, "sltu x13, x14, x15"),
    (0x0128c833, "xor x16, x17, x18"),
    (0x015a59b3, "srl x19, x20, x21"),
    (0x418bdb33, "sra x22, x23, x24"),
    (0x01bd6cb3, "or x25, x26, x27"),
    (0x01eefe33, "and x28, x29, x30"),
    (0x0ff0000f, "fence"),
    (0x00000073, "ecall"),
    (0x00100073, "ebreak"),
    (0x8001009b, "addiw x1, x2, -2048"),
    (0x01f2119b, "slliw x3, x4, 31"),
    (0x0013529b, "srliw x5, x6, 1"),
    (0x4104539b, "sraiw x7, x8, 16"),
    (0x003100bb, "addw x1, x2, x3"),
    (0x4062823b, "subw x4, x5, x6"),
    (0x009413bb, "sllw x7, x8, x9"),
    (0x00c5d53b, "srlw x10, x11, x12"),
    (0x40f756bb, "sraw x13, x14, x15"),
    (0x023100b3, "mul x1, x2, x3"),
    (0x02629233, "mulh x4, x5, x6"),
    (0x029423b3, "mulhsu x7, x8, x9"),
    (0x02c5b533, "mulhu x10, x11, x12"),
    (0x02f746b3, "div x13, x14, x15"),
    (0x0328d833, "divu x16, x17, x18"),
    (0x035a69b3, "rem x19, x20, x21"),
    (0x038bfb33, "remu x22, x23, x24"),
    (0x03bd0cbb, "mulw x25, x26, x27"),
    (0x03eece3b, "divw x28, x29, x30"),
    (0x02105fbb, "divuw x31, x0, x1"),
    (0x0241e13b, "remw x2, x3, x4"),
    (0x027372bb, "remuw x5, x6, x7"),
    (0x100120af, "lr.w x1, (x2)"),
    (0x1862a22f, "sc.w x4, x6, (x5)"),
    (0x089423af, "amoswap.w x7, x9, (x8)"),
    (0x00c5a52f, "amoadd.w x10, x12, (x11)"),
    (0x20f726af, "amoxor.w x13, x15, (x14)"),
    (0x6128a82f, "amoand.w x16, x18, (x17)"),
    (0x415a29af, "amoor.w x19, x21, (x20)"),
    (0x818bab2f, "amomin.w x22, x24, (x23)"),
    (0xa1bd2caf, "amomax.w x25, x27, (x26)"),
    (0xc1eeae2f, "amominu.w x28, x30, (x29)"),
    (0xe0102faf, "amomaxu.w x31, x1, (x0)"),
    (0x1001b12f, "lr.d x2, (x3)"),
    (0x187332af, "sc.d x5, x7, (x6)"),
    (0x08a4b42f, "amoswap.d x8, x10, (x9)"),
    (0x00d635af, "amoadd.d x11, x13, (x12)"),
    (0x2107b72f, "amoxor.d x14, x16, (x15)"),
    (0x613938af, "amoand.d x17, x19, (x18)"),
    (0x416aba2f, "amoor.d x20, x22, (x21)"),
    (0x819c3baf, "amomin.d x23, x25, (x24)"),
    (0xa1cdbd2f, "amomax.d x26, x28, (x27)"),
    (0xc1ff3eaf, "amominu.d x29, x31, (x30)"),
    (0xe020b02f, "amomaxu.d x0, x2, (x1)"),
    (0xabcde037, "lui x0, abcde"),
    (0x80000097, "auipc x1, 80000"),
    (0x8000006f, "jal x0, fffffffffff000e4"),
    (0x7fffffef, "jal x31, 00000000001000e6"),
    (0x001000ef, "jal x1, 00000000000008ec"),
    (0xfffff0ef, "jal x1, 00000000000000ee"),
    (0x7fff8067, "jalr x0, 2047(x31)"),
    (0x00011093, "slli x1, x2, 0"),
    (0x43f15093, "srai x1, x2, 63"),
    (0x0210000f, "fence"),
    (0x8330000f, "fence"),
    (0x41ff8fb3, "sub x31, x31, x31"),
    (0x1005a52f, "lr.w x10, (x11)"),
    (0x18d5a62f, "sc.w x12, x13, (x11)"),
    (0x06c5b52f, "amoadd.d.aqrl x10, x12, (x11)"),
    (0x1200afaf, "lr.w.rl x31, (x1)"),
    (0x1400afaf, "lr.w.aq x31, (x1)"),
    (0x1600afaf, "lr.w.aqrl x31, (x1)"),
    (0x021f2faf, "amoadd.w.rl x31, x1, (x30)"),
    (0x041f2faf, "amoadd.w.aq x31, x1, (x30)"),
    (0x061f2faf, "amoadd.w.aqrl x31, x1, (x30)"),
    (0x1a1f3faf, "sc.d.rl x31, x1, (x30)"),
    (0x1c1f3faf, "sc.d.aq x31, x1, (x30)"),
    (0x1e1f3faf, "sc.d.aqrl x31, x1, (x30)"),
    (0xe21f3faf, "amomaxu.d.rl x31, x1, (x30)"),
    (0xe41f3faf, "amomaxu.d.aq x31, x1, (x30)"),
    (0xe61f3faf, "amomaxu.d.aqrl x31, x1, (x30)"),
];

/// Words of other extensions, and near misses of rows.
static OTHERS: [u32; 40] = [
    0x0000100f, 0x30001073, 0x003ff0f3, 0x00012087, 0x00113427, 0x003170d3, 0x223170c3, 0x30200073,
    0x10500073, 0x00850085, 0x90029002, 0x00000000, 0xffffffff, 0x042081b3, 0x402091b3, 0x6220c1b3,
    0x0420913b, 0x0220913b, 0x04111093, 0x44115093, 0x0211109b, 0x4211509b, 0x0001209b, 0x00012063,
    0x00017003, 0x00014023, 0x00011067, 0x000000f3, 0x00008073, 0x00300073, 0x00100072, 0x1011202f,
    0x11f1302f, 0x283120af, 0xf83130af, 0x003100af, 0x003110af, 0x003140af, 0x183100af, 0x003120ae,
];

fn is_printed(inst: &Inst, pc: u64, want: &str) -> bool {
    print(inst, pc).as_slice() == want.as_bytes()
}

/// Whether a word has an instruction that is printed so, and it alone.
fn is_row(word: u32, pc: u64, want: &str) -> bool {
    match decode(word) {
        Some(inst) => {
            is_printed(&inst, pc, want) && inst.is_encodable() && encode(&inst) == word
        }
        None => false,
    }
}

/// Asserts that words, one after the other, are printed so.
fn check_rows(rt: &impl Abort, rows: &[(u32, &str)]) {
    let mut pc = START;
    for &(word, want) in rows {
        assert!(rt; is_row(word, pc, want), "at {word:08x}");
        pc = pc.wrapping_add(4);
    }
}

#[test]
fn instructions_as_objdump_prints_them(rt: HostRuntime) {
    laws::no_instruction_has_two_words();
    laws::the_instructions_in_form_have_words();
    check_rows(&rt, &ROWS);
}

#[test]
fn other_words_are_none(rt: HostRuntime) {
    for &word in &OTHERS {
        assert!(rt; decode(word).is_none(), "at {word:08x}");
    }
}
