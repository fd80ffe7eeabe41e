//! Laws of printed journals.

ghost use Rattle.std.specs.Prelude.{◌≡◌, ℕ, ◌<◌, ◌^◌, List, Bool, map, length};
ghost use Rattle.std.specs.List.{AllByRecursion};
ghost use Rattle.clk_base.specs.Description.{Description};
ghost use Rattle.clk_base.specs.declared.event.Entry.{Entry};
ghost use Rattle.reg_bank.specs.Registers.{Registers};
ghost use Rattle.clk_model.specs.Text.{Word, entry_text, journal_text};
ghost use Rattle.clk_base.specs.Valid.{IsValid};
ghost use Rattle.clk_model.specs.Journal.{opening, Legal};
ghost use Rattle.clk_journal.specs.Sized.{IsSized, NamesClocks, CallsNameClocks};
ghost use Rattle.clk_journal.specs.Told.{told_entry, CanBeTold, TellApart, IsNumber};

/// A line of a journal gives back its entry: two entries with the same number and the same line are
/// the same, but for where the program keeps their handles and for a clock called `-`, which is printed
/// like none.
pub fn one_entry()
    // The names tell clocks and drivers apart.
    ensures { (defs : Description) (names : List Word) (number : ℕ) (e f : Entry) → TellApart defs names → IsNumber number → CanBeTold defs names e → CanBeTold defs names f
        → entry_text defs names number e ≡ entry_text defs names number f → told_entry defs e ≡ told_entry defs f }
{}

/// The text of a whole journal gives back its entries: two journals with the same text have as many
/// entries, and each is the same as its line tells it.
pub fn one_journal()
    // The first journal has fewer than 2^64 entries: then so has the second.
    ensures { (defs : Description) (names : List Word) (j k : List Entry) → TellApart defs names → length j < 2 ^ 64
        → AllByRecursion (CanBeTold defs names) j → AllByRecursion (CanBeTold defs names) k
        → journal_text defs names j ≡ journal_text defs names k
        → map (told_entry defs) j ≡ map (told_entry defs) k }
{}

/// Each entry of a run names clocks of the description, and each of its polls has an answer.
pub fn clocks_are_there()
    // The calls that drivers begin name clocks of the description.
    ensures named { (defs : Description) (words : Registers) (ignore_unused : Bool) (credits : ℕ) (journal : List Entry)
        → IsValid (length words) defs → Legal (opening defs words ignore_unused credits) journal → CallsNameClocks defs journal
        → AllByRecursion (NamesClocks defs) journal }
    // With numbers of their types' sizes they can be told.
    ensures can { (defs : Description) (names : List Word) (e : Entry)
        → e.driver < length names → IsSized e → NamesClocks defs e → CanBeTold defs names e }
{}
