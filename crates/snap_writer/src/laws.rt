//! Laws of the judge, for every writer and update: the contract of a function that does nothing.
ghost use Rattle.std.specs.Prelude.{◌≡◌, ℕ, List};
ghost use Rattle.snap_history.specs.Limits.{IsNumber};
ghost use Rattle.snap_writer.specs.Writer.{WriterState, number_of};
ghost use Rattle.snap_writer.specs.{Judge.IsJudged, declared.judgement.Judgement.Judgement};

use snap_disk::Disk;

/// Each update falls under exactly one rule of the writer.
pub fn judge_laws<D: Disk>()
    ensures some { (w : WriterState D) (k : ℕ) (v : List ℕ) → IsNumber (number_of w)
        → (rule : Judgement) × IsJudged w k v rule }
    ensures one { (w : WriterState D) (k : ℕ) (v : List ℕ) (a b : Judgement)
        → IsJudged w k v a → IsJudged w k v b → a ≡ b }
{}
