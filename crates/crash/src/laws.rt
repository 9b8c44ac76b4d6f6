// Laws as clauses of functions, which the layers above cite in their contracts.
ghost use Rattle.std.specs.Prelude.{ℕ, List};
ghost use Rattle.disk.specs.Disk.{Disk, IsImage};
ghost use Rattle.crash.specs.Guard.{IsChanceFree};
ghost use Rattle.crash.specs.Distinct.{IsDistinct, IsVouched};

/// Does nothing: its clause is the law by which a premise on the checksum function takes the place
/// of one on chance. A writer, a recovery and each device call in between leave a disk whose slots
/// are vouched for. An image of such a disk is chance-free if no two byte strings that matter have
/// the same checksum in it.
pub fn chance_needs_a_collision()
    ensures { (sum : List ℕ → ℕ) (P : ℕ) (d : Disk) (image : List ℕ)
        → IsVouched sum P d → IsImage d image → IsDistinct sum P d image
        → IsChanceFree sum P d image }
{}
