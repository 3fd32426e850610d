// Laws of audits.
ghost use Rattle.std.specs.Prelude.{ℕ, List};
ghost use Rattle.stk_audit_rules.specs.declared.audit.Claim.{Claim as Stated};
ghost use Rattle.stk_audit_rules.specs.declared.audit.Audit.TheVariants as audits;
ghost use Rattle.stk_audit_rules.specs.Worlds.{World};
ghost use Rattle.stk_audit_rules.specs.Audits.{IsAudit};
ghost use Rattle.stk_audit_rules.specs.Truths.{AreTrue, IsSound};

/// A source, as the laws speak of it.
pub trait Audited {
    ghost world: { World };
}

/// Where an audit of any bundle answers yes, and the clauses of the source mean what they should, the claims are true
/// of the source, with the kinds taken out that the bundle says. It computes nothing.
pub fn yes_is_true<S: Audited>()
    ensures { IsSound S.world → (bundle : List ℕ) → (claims : List Stated) → IsAudit S.world bundle (audits.Yes claims) → AreTrue S.world bundle claims }
{}
