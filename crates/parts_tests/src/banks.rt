//! Words, bits and fields of a bank, the locks of its PLLs, and bits that are taken.

use clk_io::NoMemory;
use reg_bank::{
    Bank, MEM_BANK_WORDS, MemBank, TakenBits, read_bit, read_field, write_bit, write_field,
};
use std::alloc::Global;
use std::process::Abort;
use std::test::Fail;

// A new bank with a word written.
fn bank_with(
    rt: &impl Abort,
    alloc: Global,
    place: usize,
    value: u32,
) -> Result<MemBank, NoMemory> {
    let mut bank = MemBank::new(alloc)?;
    assert!(rt; place < bank.words());
    bank.write(place, value);
    Ok(bank)
}

// Checks the words at these places.
fn check_words(rt: &impl Abort, bank: &MemBank, words: &[(usize, u32)]) {
    for (place, value) in words {
        assert!(rt; *place < bank.words());
        assert_eq!(rt; bank.read(*place), *value);
    }
}

#[test]
fn bank_holds_what_was_written(rt: HostRuntime) -> Result<(), Fail> {
    let bank = bank_with(&rt, rt.alloc(), 7, 0xdead_beef)?;
    assert_eq!(rt; bank.words(), 65_536);
    assert_eq!(rt; MEM_BANK_WORDS, 65_536);
    check_words(&rt, &bank, &[(7, 0xdead_beef), (6, 0), (8, 0), (65_535, 0)]);
    Ok(())
}

#[test]
fn bit_three_is_eight(rt: HostRuntime) -> Result<(), Fail> {
    let mut bank = bank_with(&rt, rt.alloc(), 1, 0x8000_0001)?;
    for (bit, value, word) in [(3, true, 0x8000_0009u32), (31, false, 9)] {
        assert!(rt; bank.words() > 1);
        write_bit(&mut bank, 1, bit, value);
        check_words(&rt, &bank, &[(1, word)]);
    }
    for (word, bit, value) in [(1usize, 0u32, true), (1, 1, false), (0, 3, false)] {
        assert!(rt; word < bank.words() && bit < 32);
        assert_eq!(rt; read_bit(&bank, word, bit), value);
    }
    Ok(())
}

// Writes a number into a field of word 2 and checks the word.
fn check_write(
    rt: &impl Abort,
    bank: &mut MemBank,
    shift: u32,
    width: u32,
    number: u32,
    word: u32,
) {
    assert!(rt; bank.words() > 2 && shift <= 32 && width <= 32 - shift);
    assert!(rt; width == 32 || number < 1 << width);
    write_field(bank, 2, shift, width, number);
    check_words(rt, bank, &[(2, word)]);
}

// Checks the number in a field of word 2.
fn check_read(rt: &impl Abort, bank: &MemBank, shift: u32, width: u32, number: u32) {
    assert!(rt; bank.words() > 2 && shift <= 32 && width <= 32 - shift);
    assert_eq!(rt; read_field(bank, 2, shift, width), number);
}

#[test]
fn field_of_four_bits_stands_apart(rt: HostRuntime) -> Result<(), Fail> {
    let mut bank = bank_with(&rt, rt.alloc(), 2, 0xabcd)?;
    check_read(&rt, &bank, 4, 4, 0xc);
    check_write(&rt, &mut bank, 4, 4, 5, 0xab5d);
    check_write(&rt, &mut bank, 0, 32, 0xffff_ffff, 0xffff_ffff);
    check_read(&rt, &bank, 0, 32, 0xffff_ffff);
    check_write(&rt, &mut bank, 16, 16, 0, 0xffff);
    check_read(&rt, &bank, 32, 0, 0);
    Ok(())
}

#[test]
fn bit_is_taken_once(rt: HostRuntime) -> Result<(), Fail> {
    let mut taken = TakenBits::create(rt.alloc(), 2)?;
    assert!(rt; taken.take(1, 31));
    assert!(rt; !taken.take(1, 31));
    assert!(rt; taken.take(0, 31));
    assert!(rt; taken.take(1, 30));
    Ok(())
}

// What is done with the lock of a PLL.
#[derive(Drop)]
enum Step {
    Arm(u32),
    Start,
    Poll(bool),
}

#[test]
fn lock_answers_from_its_delay_on(rt: HostRuntime) -> Result<(), Fail> {
    let mut bank = MemBank::new(rt.alloc())?;
    let steps = [
        (7, Step::Start),
        (7, Step::Poll(true)),
        (7, Step::Arm(3)),
        (7, Step::Start),
        (7, Step::Poll(false)),
        (7, Step::Poll(false)),
        (7, Step::Poll(true)),
        (7, Step::Poll(true)),
        // armed again it has had four polls, and another lock none
        (7, Step::Arm(5)),
        (7, Step::Poll(true)),
        (4095, Step::Arm(2)),
        (4095, Step::Poll(false)),
        (0, Step::Poll(true)),
        (7, Step::Start),
        (7, Step::Poll(false)),
    ];
    for (pll, step) in &steps {
        assert!(rt; *pll < 4096);
        match step {
            Step::Arm(polls) => bank.arm(*pll, *polls),
            Step::Start => bank.start(*pll),
            Step::Poll(answer) => assert_eq!(rt; bank.locked(*pll), *answer),
        }
    }
    Ok(())
}
