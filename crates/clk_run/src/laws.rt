//! Laws of printed runs.

ghost use Rattle.std.specs.Prelude.{◌≡◌, List, map};
ghost use Rattle.clk_base.specs.declared.event.Entry.{Entry};
ghost use Rattle.clk_journal.specs.Told.{told_entry};
ghost use Rattle.clk_model.specs.Text.{journal_text};
ghost use Rattle.drv_scripts.specs.declared.bundle.Bundle.{Bundle};
ghost use Rattle.drv_scripts.specs.Placed.{IsSound};
ghost use Rattle.clk_run.specs.Runs.{IsJournalOf};
ghost use Rattle.clk_run.specs.Texts.{names_of};

/// The text of a journal of a bundle gives back the journal, whatever the mode in which it was run:
/// two journals of one bundle with the same text have the same entries, as their lines tell them.
pub fn journal_given_back()
    // Nothing is asked of names: a bundle that was read has names that tell its clocks and drivers apart.
    ensures { (b : Bundle) (j k : List Entry) → IsSound b → IsJournalOf b j → IsJournalOf b k
        → journal_text b.desc.defs (names_of b.drivers) j ≡ journal_text b.desc.defs (names_of b.drivers) k
        → map (told_entry b.desc.defs) j ≡ map (told_entry b.desc.defs) k }
{}
