// The effect of operations on the memory of their attachment: the action that they register, whether they list a discard, and the aspect that diverges.
// Every function is total, and its contract is an equation with the definition, under the translations of specs/.
ghost use Rattle.std.specs.Prelude.{◌≡◌, cond, not, false};
ghost use Rattle.std.proofs.Math.Option.{some};
ghost use Rattle.definition.specs.Attachments.{by_depth};
ghost use Rattle.channel.specs.Operations.{ops_in};
ghost use Rattle.channel.specs.Pass.{resolved_in};
ghost use Rattle.memory_init.specs.Plans.{init_kind};
ghost use Rattle.attachments.specs.Effect.{aspect_in, aspect_by, kind_by, has_effect, regular_effect, diverged_effect, depth_stencil_effect, usage_by};
ghost use Rattle.definition.specs.declared.MemoryInitKind.TheVariants.{ImplicitlyInitialized};

use channel::Operations;
use channel::pass::ResolvedPassChannel;
use definition::MemoryInitKind;

// Usages are numbers, as the reply has them: nothing here asks which usage one is.
// TextureUses::COLOR_TARGET.
pub const COLOR_TARGET: u32 = 1;

// TextureUses::DEPTH_STENCIL_READ.
const DEPTH_STENCIL_READ: u32 = 2;

// The same with RESOURCE: the view can be bound as a texture.
const DEPTH_STENCIL_READ_RESOURCE: u32 = 3;

// TextureUses::DEPTH_STENCIL_WRITE.
const DEPTH_STENCIL_WRITE: u32 = 4;

// An aspect that diverges, by its number in the reply, where 0 stands for none.
#[derive(Clone, Copy)]
pub enum Aspect {
    Depth = 1,
    Stencil = 2,
}

// No aspect diverges, by its number in the reply.
pub const NO_ASPECT: u32 = 0;

// The effect of operations: the action that they register, whether they list a discard, and the aspect that diverges.
#[derive(Clone, Copy)]
pub struct Effect {
    pub kind: Option<MemoryInitKind>,
    pub discards: bool,
    pub divergent: Option<Aspect>,
}

// The action of operations that load and store so, if any.
fn kind_by(loads: bool, keeps: bool) -> Option<MemoryInitKind>
    ensures { init_kind result ≡ kind_by loads keeps }
{
    if loads {
        Some(MemoryInitKind::NeedsInitializedMemory)
    } else if keeps {
        Some(MemoryInitKind::ImplicitlyInitialized)
    } else {
        None
    }
}

// Of depth and stencil, by whether each is stored: the one that is not where the other is.
fn divergent_aspect(depth: bool, stencil: bool) -> Option<Aspect>
    ensures { aspect_in result ≡ aspect_by depth stencil }
{
    match (depth, stencil) {
        (true, false) => Some(Aspect::Stencil),
        (false, true) => Some(Aspect::Depth),
        _ => None,
    }
}

// What operations that load and store so do to the lists: a needed action if they load, else an implicit one if they store; a discard if they do not.
fn add_pass_texture_init_actions(loads: bool, keeps: bool) -> Effect
    ensures { has_effect result (kind_by loads keeps) (not keeps) 0 }
{
    Effect {
        kind: kind_by(loads, keeps),
        discards: !keeps,
        divergent: None,
    }
}

// The effect of a colour, or of one channel alone.
pub fn regular_effect<V: Copy>(ops: Operations<V>) -> Effect
    ensures { regular_effect result (ops_in ops) }
{
    add_pass_texture_init_actions(ops.load.loads(), ops.store.stores())
}

// The effect of a resolve target, which is written whole.
pub fn resolve_effect() -> Effect
    ensures { has_effect result (some ImplicitlyInitialized) false 0 }
{
    Effect {
        kind: Some(MemoryInitKind::ImplicitlyInitialized),
        discards: false,
        divergent: None,
    }
}

// Whether the depth channel decides for both: the format has no stencil, or both load and store alike.
fn by_depth(has_stencil: bool, depth: Operations<f32>, stencil: Operations<u32>) -> bool
    ensures { result ≡ by_depth has_stencil (ops_in depth) (ops_in stencil) }
{
    let alike = stencil.load.eq_variant(depth.load) & (stencil.store == depth.store);
    (!has_stencil) | alike
}

// Of two channels that differ: a needed action if one of them loads, an implicit one if one of them stores.
fn diverged_effect(depth: Operations<f32>, stencil: Operations<u32>) -> Effect
    ensures { diverged_effect result (ops_in depth) (ops_in stencil) }
{
    let loads = depth.load.loads() | stencil.load.loads();
    let d = depth.store.stores();
    let s = stencil.store.stores();
    Effect {
        kind: kind_by(loads, d != s),
        discards: (!d) & (!s),
        divergent: divergent_aspect(d, s),
    }
}

// The depth-stencil part of start, for the aspects of the format.
#[tactic(auto, unfolding(definition::specs::Attachments::depth_stencil_kind, definition::specs::Attachments::depth_stencil_discards, definition::specs::Attachments::depth_stencil_divergent))]
pub fn depth_stencil_effect(
    has_depth: bool,
    has_stencil: bool,
    depth: ResolvedPassChannel<f32>,
    stencil: ResolvedPassChannel<u32>,
) -> Effect
    ensures { depth_stencil_effect result has_depth has_stencil (resolved_in depth) (resolved_in stencil) }
{
    let d = depth.operations();
    let s = stencil.operations();
    if by_depth(has_stencil, d, s) {
        return regular_effect(d);
    }
    if has_depth {
        diverged_effect(d, s)
    } else {
        regular_effect(s)
    }
}

// The usage of a depth-stencil attachment: it is read where both channels are read-only and the feature is there.
pub fn depth_stencil_usage(
    depth: ResolvedPassChannel<f32>,
    stencil: ResolvedPassChannel<u32>,
    feature: bool,
    binding: bool,
) -> u32
    ensures { result ≡ usage_by (resolved_in depth).read_only (resolved_in stencil).read_only feature binding }
{
    if !(depth.is_readonly() & stencil.is_readonly() & feature) {
        DEPTH_STENCIL_WRITE
    } else if binding {
        DEPTH_STENCIL_READ_RESOURCE
    } else {
        DEPTH_STENCIL_READ
    }
}
