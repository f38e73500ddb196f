//! The arguments of a command.

ghost use Rattle.std.specs.Prelude.{◌≡◌, ◌⊎◌, All, Decides, IfErr, IfNone, IfOk, IfSome, map};
ghost use Rattle.std.specs.Str.Parse.{digits_value};
ghost use Rattle.p3_merkle_core.specs.declared.error.MerkleTreeError.TheVariants.{OutOfMemory};
ghost use Rattle.mmcs_engine.specs.declared.command.CapChoice.{CapChoice};
ghost use Rattle.mmcs_engine.specs.declared.command.HashName.{HashName};
ghost use Rattle.mmcs_engine.specs.declared.fault.Fault.TheVariants.{Usage, Tree};
ghost use Rattle.mmcs_engine.specs.Args.{action_arg, arity_arg, hash_arg, texts_of, AreNoCommand, AreArgs, IsCapArg};
ghost use Rattle.mmcs_engine.specs.Args.{IsNumberArg, MayFollow};

use crate::fault::Fault;
use crate::number::parse_number;
use p3_merkle_core::cap::CapRule;
use std::alloc::Global;

/// The arguments, parsed: a command, and the indices that it opens.
#[derive(Drop)]
pub struct Args {
    /// The command.
    pub command: Command,
    /// The indices, in the order of their arguments; none of `commit`.
    pub indices: Vec<usize>,
}

/// All arguments but the indices.
#[derive(Clone, Copy)]
pub struct Command {
    /// The hash of rows and nodes.
    pub hash: HashName,
    /// How many children a node may have.
    pub arity: Arity,
    /// Which layer is the cap.
    pub cap: CapChoice,
    /// What to do with the matrices of the input.
    pub action: Action,
}

/// Which layer is the cap.
#[derive(Clone, Copy)]
pub struct CapChoice {
    /// The cap height, in levels below the root.
    pub height: usize,
    /// The rule by which the height chooses the layer.
    pub rule: CapRule,
}

/// The hashes that the program supports.
#[derive(Clone, Copy)]
pub enum HashName {
    /// The fold functions on words of 32 bits, with digests of one word. They are not secure.
    Fold,
    /// SHA-256 of rows of bytes, and of digests one after another.
    Sha256,
}

/// The arities that the program supports.
#[derive(Clone, Copy)]
pub enum Arity {
    /// 2 children.
    Two,
    /// 4 children.
    Four,
    /// 8 children.
    Eight,
}

/// What the program does with the matrices of its input.
#[derive(Clone, Copy)]
pub enum Action {
    /// Writes the cap.
    Commit,
    /// Opens the indices by one pruned proof, and writes their rows and its digests.
    Open,
    /// Opens the indices, verifies the opening, and writes how many digests the proof has.
    Check,
}

impl Args {
    /// Parses the arguments after the program's name: a hash, an arity, a cap, an action, and the indices. The action
    /// `commit` takes no index. A cap height or an index is one or more ASCII digits, and fits `usize`.
    ///
    /// # Errors
    ///
    /// The first of these that applies:
    ///
    /// - `Usage` where the arguments are no command;
    /// - `Tree(OutOfMemory)` if memory runs out.
    pub fn parse(alloc: Global, args: &[String]) -> Result<Args, Fault>
        ensures parsed { IfOk result (λ parsed. AreArgs (texts_of args.now) parsed.command parsed.indices.items) }
        ensures fault { IfErr result (λ fault. ((fault ≡ Usage) × AreNoCommand (texts_of args.now)) ⊎
            ((fault ≡ Tree OutOfMemory) × (AreNoCommand (texts_of args.now) → ⊥))) }
    {
        let (command, index_args) = Command::parse(args).ok_or(Fault::Usage)?;
        let mut indices = Vec::with_capacity(alloc, index_args.len())?;
        for arg in index_args {
            if let Some(index) = parse_number(arg.as_bytes()) {
                indices.push(index)?;
            }
        }
        Ok(Args { command, indices })
    }
}

impl Command {
    /// The command of `args`, and those of its arguments that are indices; `None` if they are no command.
    fn parse(args: &[String]) -> Option<(Command, &[String])>
        ensures found { IfSome result (λ (command, index_args). All IsNumberArg (texts_of index_args.now) ×
            AreArgs (texts_of args.now) command (map (digits_value 10) (texts_of index_args.now))) }
        ensures none { IfNone result (AreNoCommand (texts_of args.now)) }
    {
        let [hash, arity, cap, action, index_args @ ..] = args else {
            return None;
        };
        let command = Command {
            hash: HashName::parse(hash.as_str())?,
            arity: Arity::parse(arity.as_str())?,
            cap: CapChoice::parse(cap.as_bytes())?,
            action: Action::parse(action.as_str())?,
        };
        if !command.action.may_precede(index_args) {
            return None;
        }
        Some((command, index_args))
    }
}

impl CapChoice {
    /// The cap of an argument: a cap height, and after it `f` for the rule `Fixed`, or nothing for `Lowered`. `None` if
    /// it is no cap.
    pub fn parse(arg: &[u8]) -> Option<CapChoice>
        ensures found { IfSome result (IsCapArg arg.now) }
        ensures none { IfNone result ((cap : CapChoice) → IsCapArg arg.now cap → ⊥) }
    {
        if let Some(digits) = arg.strip_suffix(b"f") {
            let height = parse_number(digits)?;
            let rule = CapRule::Fixed;
            return Some(CapChoice { height, rule });
        }
        let height = parse_number(arg)?;
        let rule = CapRule::Lowered;
        Some(CapChoice { height, rule })
    }
}

impl HashName {
    /// The hash of an argument, `fold` or `sha256`; `None` if it is no hash.
    pub fn parse(arg: &str) -> Option<HashName>
        ensures found { IfSome result (λ hash. arg.now ≡ hash_arg hash) }
        ensures none { IfNone result ((hash : HashName) → arg.now ≡ hash_arg hash → ⊥) }
    {
        match arg {
            "fold" => Some(HashName::Fold),
            "sha256" => Some(HashName::Sha256),
            _ => None,
        }
    }
}

impl Arity {
    /// The arity of an argument, `2`, `4` or `8`; `None` if it is no arity.
    pub fn parse(arg: &str) -> Option<Arity>
        ensures found { IfSome result (λ arity. arg.now ≡ arity_arg arity) }
        ensures none { IfNone result ((arity : Arity) → arg.now ≡ arity_arg arity → ⊥) }
    {
        match arg {
            "2" => Some(Arity::Two),
            "4" => Some(Arity::Four),
            "8" => Some(Arity::Eight),
            _ => None,
        }
    }
}

impl Action {
    /// The action of an argument, `commit`, `open` or `check`; `None` if it is no action.
    fn parse(arg: &str) -> Option<Action>
        ensures found { IfSome result (λ action. arg.now ≡ action_arg action) }
        ensures none { IfNone result ((action : Action) → arg.now ≡ action_arg action → ⊥) }
    {
        match arg {
            "commit" => Some(Action::Commit),
            "open" => Some(Action::Open),
            "check" => Some(Action::Check),
            _ => None,
        }
    }

    /// Whether `index_args` may follow the action: numbers, and none after `commit`.
    fn may_precede(self, index_args: &[String]) -> bool
        ensures { Decides result (MayFollow self (texts_of index_args.now)) }
    {
        match self {
            Action::Commit => index_args.is_empty(),
            Action::Open | Action::Check => index_args
                .iter()
                .all(|arg| parse_number(arg.as_bytes()).is_some()),
        }
    }
}
