//! Laws of the definitions, each as the contract of a function that does nothing.
ghost use Rattle.std.specs.Prelude.{◌≡◌, ◌≤◌, ◌↔◌, ℕ, List, None};
ghost use Rattle.tlog.specs.Verdicts.{size_limit};
ghost use Rattle.tlog.specs.Rfc9162.{Hash};
ghost use Rattle.tlog_multiproof.specs.Entries.{AreIncluded, entries_refusal};
ghost use Rattle.tlog_multiproof.specs.Laws.{CapIsMth, NodesAreMth, OpeningIsInclusion, OrderIsFree};
ghost use Rattle.tlog_multiproof.specs.Laws.{ProofIsSmallest, QueryIsInclusion, RestoredArePaths, SiblingsArePath};

/// A log's tree (RFC 9162, 2.1) is the tree of arity 2 over one column of leaf hashes whose compression passes an only
/// child on, for every hash function and sizes up to 2^62: its nodes and its cap are MTH, its honest openings are PATH,
/// and its openings are accepted exactly as the algorithm of 2.1.3.2 accepts. In an opening the digests of padding are
/// absent; the standard's proofs have none.
pub fn log_tree()
    ensures nodes { NodesAreMth }
    ensures cap { CapIsMth }
    ensures siblings { SiblingsArePath }
    ensures opening { OpeningIsInclusion }
    ensures restored { RestoredArePaths }
    ensures query { QueryIsInclusion }
{}

/// The nodes of a proof of entries suffice, where padding is known, and no smaller set does that has none of the
/// entries and no node above one.
pub fn smallest_proof()
    ensures { ProofIsSmallest }
{}

/// The definition of why entries are refused gives no reason exactly if they are accepted.
pub fn unrefused_is_accepted()
    ensures { (hash : Hash) (size : ℕ) (indices : List ℕ) (leaves proof : List (List ℕ)) (root : List ℕ) →
        (entries_refusal hash size indices leaves proof root ≡ None)
        ↔ ((size ≤ size_limit) × AreIncluded hash size indices leaves proof root) }
{}

/// The verdict on entries hangs on no order of them.
pub fn order_is_free()
    ensures { OrderIsFree }
{}
