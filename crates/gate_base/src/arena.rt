ghost use Rattle.std.specs.Prelude.{◌≡◌, ◌≤◌, ◌<◌, ◌^◌, ◌↔◌, [], false, length, IfOk, IfErr, OnErr, IsTrue};
ghost use Rattle.gate_base.specs.Nodes.{and_made, counted, free_made, input_made, is_counted, made, pushed, sources_in, state_made};
ghost use Rattle.gate_base.specs.Arena.{UnlessNoMemory};

use crate::error::MakeErr;
use crate::literal::Literal;
use crate::node::Node;
use loc_base::NoMemory;
use std::alloc::Global;
use std::marker::Model;

/// The arena: a list of nodes that only grows, of which at most `limit` are AND or free nodes.
#[derive(Drop)]
pub struct Maker {
    nodes: Vec<Node>,
    counted: u32,
    sources: u32,
    limit: u32,
}

impl Model for Maker {
    ghost use Rattle.gate_base.specs.Arena.{Arena};
    ghost use Rattle.gate_base.specs.Fields.{IsArena, arena_of};

    ghost Value = { Arena };

    ghost view = { arena_of };

    ghost invariant = { IsArena };
}

impl Maker {
    /// No nodes. It takes no memory.
    #[tactic(auto, using(crate::proofs::Counts::counts))]
    pub fn new(alloc: Global, limit: u32) -> Maker
        requires { limit < 2 ^ 31 }
        ensures { result ≡ record { nodes = []; limit = limit } }
    {
        Maker {
            nodes: Vec::new(alloc),
            counted: 0,
            sources: 0,
            limit,
        }
    }

    /// The number of nodes.
    #[tactic(auto, using(crate::proofs::Counts::counts))]
    pub fn len(&self) -> u32
        ensures value { result ≡ length self.now.nodes }
        ensures within { counted self.now.nodes ≤ self.now.limit }
    {
        self.counted + self.sources
    }

    /// The number of nodes that are bits of inputs or states. Fewer than 2,147,483,648 of them may be made.
    pub fn sources(&self) -> u32
        ensures { result ≡ sources_in self.now.nodes }
    {
        self.sources
    }

    /// Whether there are none.
    pub fn is_empty(&self) -> bool
        ensures { IsTrue result ↔ (self.now.nodes ≡ []) }
    {
        self.nodes.is_empty()
    }

    /// The nodes.
    pub fn nodes(&self) -> &[Node]
        ensures { result.now ≡ self.now.nodes }
    {
        self.nodes.as_slice()
    }

    /// The nodes, in the memory in which they were made.
    pub fn into_nodes(self) -> Vec<Node>
        ensures value { result.items ≡ self.nodes }
        ensures within { counted self.nodes ≤ self.limit }
    {
        let Maker {
            nodes,
            counted: _,
            sources: _,
            limit: _,
        } = self;
        nodes
    }

    /// A new AND or free node. Unchanged after a refusal.
    #[tactic(auto, using(crate::proofs::Counts::counts), unfolding(crate::specs::Nodes::pushed))]
    fn push_counted(&mut self, node: Node) -> Result<Literal, MakeErr>
        requires { IsTrue (is_counted node) }
        ensures ok { IfOk result (λ l. made self.new.nodes l ≡ pushed self.old.nodes node) }
        ensures err { IfErr result (λ e. UnlessNoMemory e (self.old.limit < counted (pushed self.old.nodes node).nodes)) }
        ensures kept { OnErr result (self.new.nodes ≡ self.old.nodes) }
        ensures limit { self.new.limit ≡ self.old.limit }
    {
        if self.counted == self.limit {
            return Err(MakeErr::Limit);
        }
        let number = self.counted + self.sources;
        self.nodes.push(node)?;
        self.counted += 1;
        Ok(Literal::Of {
            node: number,
            negated: false,
        })
    }

    /// A new node that the limit doesn't count. Unchanged after `NoMemory`.
    #[tactic(auto, using(crate::proofs::Counts::counts), unfolding(crate::specs::Nodes::pushed))]
    fn push_source(&mut self, node: Node) -> Result<Literal, NoMemory>
        requires source { is_counted node ≡ false }
        requires few { sources_in self.old.nodes < 2 ^ 31 }
        ensures ok { IfOk result (λ l. made self.new.nodes l ≡ pushed self.old.nodes node) }
        ensures kept { OnErr result (self.new.nodes ≡ self.old.nodes) }
        ensures limit { self.new.limit ≡ self.old.limit }
    {
        let number = self.counted + self.sources;
        self.nodes.push(node)?;
        self.sources += 1;
        Ok(Literal::Of {
            node: number,
            negated: false,
        })
    }

    /// The bit of an input. Unchanged after `NoMemory`.
    #[tactic(auto, unfolding(crate::specs::Nodes::input_made))]
    pub fn input(&mut self, input: u32, bit: u8) -> Result<Literal, NoMemory>
        requires { sources_in self.old.nodes < 2 ^ 31 }
        ensures ok { IfOk result (λ l. made self.new.nodes l ≡ input_made self.old.nodes input bit) }
        ensures kept { OnErr result (self.new.nodes ≡ self.old.nodes) }
        ensures limit { self.new.limit ≡ self.old.limit }
    {
        self.push_source(Node::Input { input, bit })
    }

    /// The bit of a state. Unchanged after `NoMemory`.
    #[tactic(auto, unfolding(crate::specs::Nodes::state_made))]
    pub fn state(&mut self, state: u32, bit: u8) -> Result<Literal, NoMemory>
        requires { sources_in self.old.nodes < 2 ^ 31 }
        ensures ok { IfOk result (λ l. made self.new.nodes l ≡ state_made self.old.nodes state bit) }
        ensures kept { OnErr result (self.new.nodes ≡ self.old.nodes) }
        ensures limit { self.new.limit ≡ self.old.limit }
    {
        self.push_source(Node::State { state, bit })
    }

    /// The bit of a place. Unchanged after a refusal.
    #[tactic(auto, unfolding(crate::specs::Nodes::free_made))]
    pub fn free(
        &mut self,
        moment: u32,
        place: u32,
        bit: u8,
        computed: Literal,
    ) -> Result<Literal, MakeErr>
        ensures ok { IfOk result (λ l. made self.new.nodes l ≡ free_made self.old.nodes moment place bit computed) }
        ensures err { IfErr result (λ e. UnlessNoMemory e (self.old.limit < counted (free_made self.old.nodes moment place bit computed).nodes)) }
        ensures kept { OnErr result (self.new.nodes ≡ self.old.nodes) }
        ensures limit { self.new.limit ≡ self.old.limit }
    {
        self.push_counted(Node::Free {
            moment,
            place,
            bit,
            computed,
        })
    }

    /// AND. Unchanged after a refusal.
    #[tactic(auto, unfolding(crate::specs::Nodes::and_made, crate::specs::Nodes::made_unless))]
    pub fn and(&mut self, left: Literal, right: Literal) -> Result<Literal, MakeErr>
        ensures ok { IfOk result (λ l. made self.new.nodes l ≡ and_made self.old.nodes left right) }
        ensures err { IfErr result (λ e. UnlessNoMemory e (self.old.limit < counted (and_made self.old.nodes left right).nodes)) }
        ensures kept { OnErr result (self.new.nodes ≡ self.old.nodes) }
        ensures limit { self.new.limit ≡ self.old.limit }
    {
        match left.folded(right) {
            Some(literal) => Ok(literal),
            None => self.push_counted(Node::And { left, right }),
        }
    }
}
