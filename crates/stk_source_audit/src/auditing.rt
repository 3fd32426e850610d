// The audit of a bundle by the text of its source.
ghost use Rattle.std.specs.Prelude.{◌≡◌, ◌≤◌, List, [], length, IfOk};
ghost use Rattle.stk_audit_rules.specs.Audits.{IsAudit};
ghost use Rattle.stk_audit_rules.specs.Truths.{HasTrueClaims};
ghost use Rattle.stk_source_audit.specs.Reading.{ReadUnit, AreRead};
ghost use Rattle.stk_source_audit.specs.Sources.{world_of};
ghost use Rattle.stk_source_audit.specs.Keeping.{IsCutWell};

use crate::SourceAnswers;
use std::alloc::Global;
use stk_audit::audit_of;
use stk_audit_rules::Audit;
use stk_base::NoMemory;
use stk_lex::{Piece, Token};

/// The audit of a bundle of at most 2^30 bytes by its source, whose tokens and units these are: the tokens that
/// skimming keeps, and where each unit stands among them. `Yes` has the claims of the bundle, in order, and each of
/// them is true of the source; `No` names the first line that fails, counted from 1, and why. The only refusal is want
/// of memory.
pub fn audit_source(
    alloc: Global,
    bytes: &[u8],
    tokens: &[Token],
    pieces: &[Piece],
    bundle: &[u8],
) -> Result<Audit, NoMemory>
    requires cut { IsCutWell (record { bytes = bytes.now; tokens = tokens.now; pieces = pieces.now }) }
    requires short { length bundle.now ≤ 1073741824 }
    ensures answer { (units : List ReadUnit) → AreRead bytes.now tokens.now [] pieces.now units → IfOk result (IsAudit (world_of bytes.now units) bundle.now) }
    ensures claims { (units : List ReadUnit) → AreRead bytes.now tokens.now [] pieces.now units → IfOk result (HasTrueClaims (world_of bytes.now units) bundle.now) }
{
    let mut answering = SourceAnswers::new(alloc, bytes, tokens, pieces);
    audit_of(alloc, &mut answering, bundle)
}
