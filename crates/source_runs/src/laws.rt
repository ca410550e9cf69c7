//! Laws of what an answer promises, for the crate above.

ghost use Rattle.std.specs.Prelude.{ℕ, List, Option};
ghost use Rattle.asm_base.specs.History.{FileEvent};
ghost use Rattle.asm_base.specs.Inputs.{Contents};
ghost use Rattle.asm_front.specs.Sources.{MainSource};
ghost use Rattle.run_words.specs.Words.{Invocation};
ghost use Rattle.source_runs.specs.Outcome.{CommandHolds, Outcome};
ghost use Rattle.source_runs.specs.Answers.{Answers, Effects, LeavesAll, StartsFront};

use asm_base::Status;

/// Where nothing was said or made, `NoMemory` keeps what it promises, whatever the words stand for.
#[tactic(auto, using(crate::proofs::StandingOutcomes::memory_lost))]
pub fn refused_memory_leaves_all()
    ensures { (command : Option Invocation) (contents : Option Contents) (e : Effects) → LeavesAll e
        → CommandHolds command contents Status.NoMemory
        (λ made outcome. Answers command outcome Status.NoMemory e) }
{}

/// Where no file is started, what every status promises of files holds, whatever the words stand for.
#[tactic(auto, using(crate::proofs::StartedFiles::starts_none))]
pub fn nothing_starts_no_file()
    ensures { (outcome : Option Outcome) (main : MainSource) (known : Option (List FileEvent))
        (taken : ℕ) → StartsFront outcome main known known taken taken }
{}
