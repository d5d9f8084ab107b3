// What a reader of a log may rely on, in the subject's own words.
ghost use Rattle.std.specs.Prelude.{◌≡◌, List};
ghost use Rattle.zk_value.specs.declared.cell.Cell.{Cell};
ghost use Rattle.zk_value.specs.declared.cell.Column.{Column};
ghost use Rattle.zk_ascii.specs.Text.{row_text};
ghost use Rattle.zk_ascii.specs.Fits.{Fit};

/// Rows of the same columns with equal text have equal cells, where each cell fits its column. There is
/// nothing to run.
pub fn equal_texts()
    ensures { (columns : List Column) (a b : List Cell) → Fit columns a → Fit columns b → row_text a ≡ row_text b → a ≡ b }
{}
