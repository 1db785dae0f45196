//! What holds of all CDBs.
ghost use Rattle.std.specs.Prelude.{◌≡◌, ◌↔◌, ℕ, List, Ok, Err};
ghost use Rattle.hpb_cdb.specs.Cdb.{IsCdb, IsFault};
ghost use Rattle.hpb_cdb.specs.Read.{cdb_of};
ghost use Rattle.hpb_cdb.specs.declared.cdb.Cdb.{Cdb};
ghost use Rattle.hpb_cdb.specs.declared.fault.CdbFault.{CdbFault};
ghost use Rattle.hpb_cdb.specs.declared.limits.Limits.{Limits};

/// Bytes are one command at most or have one first fault, and the answer that computes is that one.
pub fn one_answer()
    ensures command { (lim : Limits) (cdb : List ℕ) (command : Cdb)
        → (cdb_of lim cdb ≡ Ok command) ↔ IsCdb cdb lim command }
    ensures fault { (lim : Limits) (cdb : List ℕ) (fault : CdbFault)
        → (cdb_of lim cdb ≡ Err fault) ↔ IsFault cdb lim fault }
{}
