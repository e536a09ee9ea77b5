//! The trees of the layers.

ghost use Rattle.std.specs.Prelude.{ℕ, ◌≡◌, ◌≢◌, ◌*◌, ◌+◌, ◌<◌, ◌≤◌, ◌^◌, true, IfOk, max, length, replicate, set};
ghost use Rattle.lam_geom.specs.declared.layer.Layer.{Layer};
ghost use Rattle.cover_tree.specs.Parts.{IsSmall, top_at};
ghost use Rattle.cover_tree.specs.Nodes.{keeps, layers_of, no_layers, no_tops, stale};
ghost use Rattle.cover_tree.specs.Layered.{node_at, tree, told_tree};
ghost use Rattle.cover_tree.specs.Looking.{own_at, told_at};
ghost use Rattle.cover_tree.specs.Kinds.{HasKind, further};
ghost use Rattle.cover_tree.specs.Notes.{IsNoted, IsTold, AreNoted, AreHalvesNoted, AreHalvesTold, IsOnlyIn};
ghost use Rattle.cover_tree.specs.Notes.{note_at};

use crate::kinds::{Kinds, further};
use crate::layer_set::LayerSet;
use crate::node::{Node, Tops};
use crate::note::Note;
use crate::part::Part;
use lam_geom::Layer;
use mask_runs::Mask;
use mp_base::NoMemory;
use std::alloc::Global;

/// The nodes of the trees of all layers, side by side: up to which row each covers a part as a whole, with a note of
/// the rows from the one told last on. They have tops of ND, NP, NB, NM and the further layer, which are all that a
/// mask uses.
#[derive(Drop)]
pub(crate) struct Trees {
    pub nodes: Vec<Node>,
    pub further: Layer,
    pub since: u32,
}

impl Trees {
    /// Trees over a number of cells, of which none is covered.
    pub fn new(alloc: Global, mask: Mask, cells: u32) -> Result<Trees, NoMemory>
        requires { cells < 2 ^ 31 }
        ensures nodes { IfOk result (λ t. (n : Note) × HasKind n.kinds no_layers
            × (t.nodes.items ≡ replicate (2 * cells) (record { tops = no_tops; told = no_layers; note = n }))) }
        ensures kept { IfOk result (λ t. t.further ≡ further mask) }
        ensures since { IfOk result (λ t. t.since ≡ 0) }
    {
        let note = Note {
            until: u32::MAX,
            kinds: Kinds::one(LayerSet::none()),
        };
        let node = Node {
            tops: Tops::none(),
            told: LayerSet::none(),
            note,
        };
        Ok(Trees {
            nodes: vec![in alloc; node; 2 * cells as usize]?,
            further: further(mask),
            since: 0,
        })
    }

    /// The layers that cover a part as a whole, by its own node.
    pub fn own_at(&self, at: usize) -> LayerSet
        ensures { layers_of self.now.further result ≡ own_at self.now self.now.since at }
    {
        self.node_at(at).tops.set(self.since)
    }

    /// The layers that did so in the row told last.
    pub fn told_at(&self, at: usize) -> LayerSet
        ensures { layers_of self.now.further result ≡ told_at self.now at }
    {
        self.node_at(at).told
    }

    /// The note of a part.
    pub fn note_at(&self, at: usize) -> Note
        ensures { result ≡ note_at self.now at }
    {
        self.node_at(at).note
    }

    fn node_at(&self, at: usize) -> Node
        ensures { result ≡ node_at self.now at }
    {
        match self.nodes.get(at) {
            Some(node) => *node,
            None => Node::blank(),
        }
    }

    /// Covers a part as a whole with a layer in the rows below `row` besides.
    pub fn lift(&mut self, layer: Layer, at: usize, row: u32)
        requires within { at < length self.old.nodes.items }
        requires kept { keeps layer self.old.further ≡ true }
        ensures own { tree self.new layer ≡ set (tree self.old layer) at (max (top_at (tree self.old layer) at) row) }
        ensures others { (l : Layer) → l ≢ layer → tree self.new l ≡ tree self.old l }
        ensures told { (l : Layer) → told_tree self.new l ≡ told_tree self.old l }
        ensures beside { (k : ℕ) → k ≢ at → node_at self.new k ≡ node_at self.old k }
        ensures note { note_at self.new at ≡ note_at self.old at }
        ensures as_many { length self.new.nodes.items ≡ length self.old.nodes.items }
        ensures further { self.new.further ≡ self.old.further }
        ensures since { self.new.since ≡ self.old.since }
    {
        let node = self.node_at(at);
        let tops = node.tops.lifted(layer, row);
        self.set_node(at, Node { tops, ..node });
    }

    /// Forgets the note of a part, so that it's noted anew when it is told next.
    pub fn forget(&mut self, part: Part)
        requires small { IsSmall part }
        requires room { part.at + 2 * part.width ≤ length self.old.nodes.items + 1 }
        ensures noted { AreHalvesNoted self.old part → AreNoted self.new part }
        ensures stale { note_at self.new part.at ≡ stale }
        ensures only { IsOnlyIn part self.old self.new }
        ensures tops { (l : Layer) → tree self.new l ≡ tree self.old l }
        ensures told { (l : Layer) → told_tree self.new l ≡ told_tree self.old l }
    {
        self.set_note(part.at, Note::stale());
    }

    /// Takes a part as told in the row of the trees, and notes anew what lies over it, where its halves are told and
    /// noted.
    pub fn settle(&mut self, part: Part, own: LayerSet)
        requires small { IsSmall part }
        requires own { layers_of self.old.further own ≡ own_at self.old self.old.since part.at }
        requires room { part.at + 2 * part.width ≤ length self.old.nodes.items + 1 }
        requires halves { AreHalvesNoted self.old part }
        requires told_halves { AreHalvesTold self.old part }
        ensures noted { AreNoted self.new part }
        ensures told { IsTold self.new part }
        ensures only { IsOnlyIn part self.old self.new }
        ensures tops { (l : Layer) → tree self.new l ≡ tree self.old l }
    {
        let note = self.summed(part, own);
        let tops = self.node_at(part.at).tops;
        self.set_node(
            part.at,
            Node {
                tops,
                told: own,
                note,
            },
        );
    }

    fn set_note(&mut self, at: usize, note: Note)
        requires { at < length self.old.nodes.items }
        ensures nodes { self.new.nodes.items
            ≡ set self.old.nodes.items at (record (node_at self.old at) { note = note }) }
        ensures further { self.new.further ≡ self.old.further }
        ensures since { self.new.since ≡ self.old.since }
    {
        let node = self.node_at(at);
        self.set_node(at, Node { note, ..node });
    }

    fn set_node(&mut self, at: usize, node: Node)
        requires { at < length self.old.nodes.items }
        ensures nodes { self.new.nodes.items ≡ set self.old.nodes.items at node }
        ensures further { self.new.further ≡ self.old.further }
        ensures since { self.new.since ≡ self.old.since }
    {
        self.nodes[at] = node;
    }

    // What lies over a part, by the layers of its own node and the notes of its halves.
    fn summed(&self, part: Part, own: LayerSet) -> Note
        requires small { IsSmall part }
        requires own { layers_of self.now.further own ≡ own_at self.now self.now.since part.at }
        requires halves { AreHalvesNoted self.now part }
        ensures { IsNoted self.now part result }
    {
        let until = self.own_until(part.at, own);
        if part.width < 2 {
            return Note {
                until,
                kinds: Kinds::one(own),
            };
        }
        let left = self.note_at(part.left().at);
        let right = self.note_at(part.right().at);
        Note {
            until: until.min(left.until.min(right.until)),
            kinds: left.kinds.union(right.kinds).with(own),
        }
    }

    // Up to which row a part's own node gives the same layers as now, which are `own`.
    fn own_until(&self, at: usize, own: LayerSet) -> u32
        requires { layers_of self.now.further own ≡ own_at self.now self.now.since at }
        ensures { (row : ℕ) → self.now.since ≤ row → row < result
            → own_at self.now row at ≡ own_at self.now self.now.since at }
    {
        if own.bits == 0 {
            return u32::MAX;
        }
        self.node_at(at).tops.until(self.since)
    }
}
