// A channel as a pass gives it, and what it resolves to: 14 to 26. What is made of a clear value is handed in.
ghost use Rattle.std.specs.Prelude.{◌≡◌};
ghost use Rattle.std.proofs.Math.Option.{none};
ghost use Rattle.definition.specs.Channel as Ch;
ghost use Rattle.definition.specs.Pass.{ops_bits};
ghost use Rattle.definition.specs.Refusals.{number_of};
ghost use Rattle.channel.specs.Operations.{keep_in, store_in, load_in, ops_in};
ghost use Rattle.channel.specs.Valued.{asked_clear};
ghost use Rattle.channel.specs.Pass.{option_in, field_in, channel_in, handled_in, Handles, resolved_in, answer_in, without_ops};

use crate::{LoadOp, Operations, StoreOp, check_transient_attachment_ops};
use definition::by_refusal::refused_at;
use definition::refusals::Refusal;
use definition::verdicts::{AT_DEPTH_STENCIL, accepted, unless};
use definition::{Channel, Verdict};

// PassChannel<V>.
#[derive(Clone, Copy)]
pub struct PassChannel<V> {
    pub load_op: Option<LoadOp<V>>,
    pub store_op: Option<StoreOp>,
    pub read_only: bool,
}

// ResolvedPassChannel<V>.
#[derive(Clone, Copy)]
pub enum ResolvedPassChannel<V> {
    ReadOnly,
    Operational(Operations<V>),
}

// A resolved channel, or why it is refused.
pub type Resolved<V> = Result<ResolvedPassChannel<V>, Refusal>;

// ── by the row's numbers

// By the field's number: 0 Load, 1 Clear, 2 DontCare, 3 absent.
fn load_field<V: Copy>(n: u32, clear: Option<V>) -> Option<LoadOp<Option<V>>>
    ensures { field_in result ≡ Ch.load_field n (option_in clear) }
{
    (n < 3).then_some(LoadOp::of(n, clear))
}

// By the field's number: 0 Store, 1 Discard, 2 absent.
fn store_field(n: u32) -> Option<StoreOp>
    ensures { store_in result ≡ Ch.store_field n }
{
    (n < 2).then_some(StoreOp::from(n))
}

// A channel by its row, with this clear value if one is given.
pub fn channel_of<V: Copy>(c: Channel, clear: V) -> PassChannel<Option<V>>
    ensures { channel_in result ≡ Ch.channel_of (λ _. clear) c }
{
    PassChannel {
        load_op: load_field(c.load, (c.given == 1).then_some(clear)),
        store_op: store_field(c.store),
        read_only: c.readonly == 1,
    }
}

// ── checked and resolved

impl<V: Copy> PassChannel<Option<V>> {
    // The load that is asked for.
    fn load(self) -> Option<LoadOp<Option<V>>>
        ensures { field_in result ≡ (channel_in self).load }
    {
        self.load_op
    }

    // The store that is asked for.
    fn store(self) -> Option<StoreOp>
        ensures { store_in result ≡ (channel_in self).store }
    {
        self.store_op
    }

    // Whether the channel is only read.
    fn is_readonly(self) -> bool
        ensures { result ≡ (channel_in self).read_only }
    {
        self.read_only
    }

    // The value of a Clear; none where there is none.
    pub fn clear_value(self) -> Option<V>
        ensures { option_in result ≡ asked_clear none (channel_in self).load }
    {
        match self.load_op {
            Some(LoadOp::Clear(value)) => value,
            _ => None,
        }
    }

    // Of a transient attachment: n where both operations are given and are not Clear or DontCare with Discard,
    // m where one is absent and the channel is read-only.
    #[tactic(auto, unfolding(definition::specs::Channel::transient_channel))]
    pub fn check_transient(self, n: u32, m: u32) -> Verdict
        ensures { result ≡ Ch.transient_channel (channel_in self) n m }
    {
        match (self.load(), self.store()) {
            (Some(load), Some(store)) => unless(
                check_transient_attachment_ops(load, store),
                n,
                AT_DEPTH_STENCIL,
            ),
            _ => unless(!self.is_readonly(), m, AT_DEPTH_STENCIL),
        }
    }

    // Read-only, unless it has a load or a store.
    fn without_ops(self, with_load: Refusal, with_store: Refusal) -> Resolved<V>
        ensures { answer_in result ≡ without_ops (channel_in self).load (channel_in self).store (number_of with_load) (number_of with_store) }
    {
        if self.load_op.is_some() {
            return Err(with_load);
        }
        if self.store_op.is_some() {
            return Err(with_store);
        }
        Ok(ResolvedPassChannel::ReadOnly)
    }

    // Of an aspect that the format lacks: refused with an operation.
    #[tactic(auto, using(crate::proofs::Resolve::absent))]
    pub fn resolve_absent(self, refusal: Refusal) -> Resolved<V>
        ensures { answer_in result ≡ Ch.resolve_absent (channel_in self) (number_of refusal) }
    {
        self.without_ops(refusal, refusal)
    }

    // 18 to 24: a read-only channel has no operations, any other both. A Clear's value is handled.
    #[tactic(auto, unfolding(definition::specs::Channel::resolve))]
    pub fn resolve<H: Fn(Option<V>) -> Result<V, Refusal>>(
        self,
        strict: bool,
        handle_clear: H,
    ) -> Resolved<V>
        requires { H.IsAlwaysCallable handle_clear }
        ensures { (handle : _) → Handles (H.post handle_clear) handle → answer_in result ≡ Ch.resolve handle strict (channel_in self) }
    {
        if self.read_only {
            return self.without_ops(Refusal::ReadOnlyWithLoad, Refusal::ReadOnlyWithStore);
        }
        let load = match self.load_op.ok_or(Refusal::NoLoad)? {
            LoadOp::Load => LoadOp::Load,
            LoadOp::Clear(value) => LoadOp::Clear(handle_clear(value)?),
            LoadOp::DontCare => {
                if strict {
                    return Err(Refusal::ChannelDontCare);
                }
                LoadOp::DontCare
            }
        };
        Ok(ResolvedPassChannel::Operational(Operations {
            load,
            store: self.store_op.ok_or(Refusal::NoStore)?,
        }))
    }

    // The same, of a clear value that was handled before.
    pub fn resolve_handled(self, strict: bool, clear: Result<V, Refusal>) -> Resolved<V>
        ensures { answer_in result ≡ Ch.resolve (λ _. handled_in clear) strict (channel_in self) }
    {
        self.resolve(strict, |_| clear)
    }
}

// Fine for a channel, else its refusal.
pub fn verdict_of<V: Copy>(answer: Resolved<V>) -> Verdict
    ensures { result ≡ Ch.resolved_verdict (answer_in answer) }
{
    match answer {
        Ok(_) => accepted(),
        Err(refusal) => refused_at(refusal, AT_DEPTH_STENCIL),
    }
}

// The channel. (Of a refused one nothing is asked.)
pub fn or_read_only<V: Copy>(answer: Resolved<V>) -> ResolvedPassChannel<V>
    ensures { resolved_in result ≡ Ch.resolved_ops (answer_in answer) }
{
    answer.unwrap_or(ResolvedPassChannel::ReadOnly)
}

// ── a resolved channel

impl<V: Copy> ResolvedPassChannel<V> {
    // Its operations: a read-only channel loads and stores.
    pub fn operations(self) -> Operations<V>
        ensures { ops_in result ≡ Ch.operational (resolved_in self).load (resolved_in self).keep }
    {
        let ResolvedPassChannel::Operational(ops) = self else {
            return Operations {
                load: LoadOp::Load,
                store: StoreOp::Store,
            };
        };
        ops
    }

    // What happens at the start of the pass: a read-only channel loads.
    pub fn load_op(self) -> LoadOp<V>
        ensures { load_in result ≡ (resolved_in self).load }
    {
        self.operations().load
    }

    // What happens at its end: a read-only channel stores.
    pub fn store_op(self) -> StoreOp
        ensures { keep_in result ≡ (resolved_in self).keep }
    {
        self.operations().store
    }

    // The bits of its operations.
    pub fn hal_ops(self) -> u32
        ensures { result ≡ ops_bits (resolved_in self) }
    {
        self.operations().hal_ops()
    }

    // Whether the channel is only read.
    pub fn is_readonly(self) -> bool
        ensures { result ≡ (resolved_in self).read_only }
    {
        matches!(self, ResolvedPassChannel::ReadOnly)
    }
}

impl<V: Copy + Default> ResolvedPassChannel<V> {
    // A value that is not cleared is zero.
    pub fn clear_value(self) -> V
        ensures { (zero : _) × V.is_default zero × (result ≡ Ch.clear_value zero (resolved_in self).load) }
    {
        self.load_op().clear_value_or(V::default())
    }
}
