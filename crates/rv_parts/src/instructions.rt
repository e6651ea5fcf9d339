//! Words that GNU binutils 2.40 disassembles so.
use rv_insn::{Insn, Operation, Undecoded, Width, decode};
use std::process::Abort;

/// The word at this width is the operation with these registers (rd, rs1, rs2) and this immediate.
fn assert_decoded(
    rt: &impl Abort,
    word: u32,
    width: Width,
    operation: Operation,
    registers: (u8, u8, u8),
    immediate: i32,
) {
    let Ok(insn) = decode(word, width) else {
        panic!(rt; "{word:x} is not decoded");
    };
    assert_eq!(rt; insn.operation, operation, "{word:x}");
    assert_eq!(rt; (insn.rd, insn.rs1, insn.rs2), registers, "{word:x}");
    assert_eq!(rt; insn.immediate, immediate, "{word:x}");
}

#[test]
fn words_of_32_bits(rt: HostRuntime) {
    let cases = [
        (0x0000_0013, Operation::Addi, (0, 0, 0), 0),
        (0xfe01_0113, Operation::Addi, (2, 2, 0), -32),
        (0x00b5_2023, Operation::Sw, (0, 10, 11), 0),
        (0xfeb4_3c23, Operation::Sd, (0, 8, 11), -8),
        (0xfe05_0ee3, Operation::Beq, (0, 10, 0), -4),
        (0x0000_0537, Operation::Lui, (10, 0, 0), 0),
        (0xffff_f537, Operation::Lui, (10, 0, 0), -4096),
        (0xff5f_f0ef, Operation::Jal, (1, 0, 0), -12),
        (0x03f5_1513, Operation::Slli, (10, 10, 0), 63),
        (0x02b5_0533, Operation::Mul, (10, 10, 11), 0),
        (0x00b5_2007, Operation::Flw, (0, 10, 0), 11),
        (0xd025_7553, Operation::FcvtSL, (10, 10, 0), 0),
    ];
    for (word, operation, registers, immediate) in cases {
        assert_decoded(&rt, word, Width::Rv64, operation, registers, immediate);
    }
}

#[test]
fn words_of_16_bits(rt: HostRuntime) {
    let cases = [
        (0x4501, Operation::Addi, (10, 0, 0), 0),
        (0x8082, Operation::Jalr, (0, 1, 0), 0),
        (0x715d, Operation::Addi, (2, 2, 0), -80),
        (0x0808, Operation::Addi, (10, 2, 0), 16),
        (0x852e, Operation::Add, (10, 0, 11), 0),
        (0x952e, Operation::Add, (10, 10, 11), 0),
        (0x610c, Operation::Ld, (11, 10, 0), 0),
        (0xe42e, Operation::Sd, (0, 2, 11), 8),
        (0x70e2, Operation::Ld, (1, 2, 0), 56),
        (0xbfd5, Operation::Jal, (0, 0, 0), -12),
        (0xd571, Operation::Beq, (0, 10, 0), -52),
        (0x75fd, Operation::Lui, (11, 0, 0), -4096),
    ];
    for (word, operation, registers, immediate) in cases {
        assert_decoded(&rt, word, Width::Rv64, operation, registers, immediate);
    }
}

#[test]
fn bits_that_order_memory(rt: HostRuntime) {
    // lr.w.aq; sc.w.rl; fence rw,w; fence.tso
    assert_annotated(&rt, 0x1405_25af, Operation::LrW, (true, false));
    assert_annotated(&rt, 0x1ab5_262f, Operation::ScW, (false, true));
    assert_fence(&rt, 0x0310_000f, (3, 1));
    assert_annotated(&rt, 0x8330_000f, Operation::FenceTso, (false, false));
}

/// The instruction of the word at 32 bits.
fn insn_of(rt: &impl Abort, word: u32) -> Insn {
    match decode(word, Width::Rv32) {
        Ok(insn) => insn,
        Err(_) => panic!(rt; "{word:x} is not decoded"),
    }
}

/// The word is the operation with these `aq` and `rl` bits.
fn assert_annotated(rt: &impl Abort, word: u32, operation: Operation, bits: (bool, bool)) {
    let insn = insn_of(rt, word);
    assert_eq!(rt; insn.operation, operation, "{word:x}");
    assert_eq!(rt; (insn.acquire, insn.release), bits, "{word:x}");
}

/// The word is a fence of these sets.
fn assert_fence(rt: &impl Abort, word: u32, sets: (u8, u8)) {
    let insn = insn_of(rt, word);
    assert_eq!(rt; (insn.predecessors, insn.successors), sets, "{word:x}");
}

/// The word is none at this width.
fn assert_refused(rt: &impl Abort, word: u32, width: Width, why: Undecoded) {
    assert!(rt; decode(word, width) == Err(why), "{word:x}");
}

#[test]
fn widths_and_refusals(rt: HostRuntime) {
    let cases = [
        (0x0000_3503, Width::Rv32, Undecoded::Unknown),
        (0x0000_0000, Width::Rv64, Undecoded::Illegal),
        (0x0000_8002, Width::Rv64, Undecoded::Reserved),
        (0x0000_0057, Width::Rv64, Undecoded::Vector),
        (0x0000_000b, Width::Rv64, Undecoded::Custom),
        (0xffff_ffff, Width::Rv64, Undecoded::Unknown),
    ];
    for (word, width, why) in cases {
        assert_refused(&rt, word, width, why);
    }
    assert_decoded(&rt, 0x2001, Width::Rv32, Operation::Jal, (1, 0, 0), 0);
    assert_decoded(&rt, 0x2505, Width::Rv64, Operation::Addiw, (10, 10, 0), 1);
}
