// The channels of a depth-stencil attachment: a Clear carries an f32 or a u32. What does not turn on the value is in `channel`.
// Every function is total, and its contract is an equation with the definition, under the translations of `channel`.
#![tactic(auto)]

ghost use Rattle.std.specs.Prelude.{◌≡◌};
ghost use Rattle.definition.specs.Channel as Ch;
ghost use Rattle.channel.specs.Pass.{option_in, channel_in, handled_in, answer_in};

use channel::pass::{PassChannel, Resolved, channel_of};
use definition::Channel;
use definition::refusals::Refusal;
use encoding::f32_of_bits;

// ── depth: an f32, from 0.0 to 1.0

// 0.0 to 1.0, both included: -0.0 is in it, and no NaN.
#[tactic(auto, unfolding(definition::specs::Channel::depth_in_range))]
fn in_range(x: f32) -> bool
    ensures { result ≡ Ch.depth_in_range x }
{
    (0.0 <= x) & (x <= 1.0)
}

// 21 without a clear value, 22 out of range.
fn handle_depth(clear: Option<f32>) -> Result<f32, Refusal>
    ensures { handled_in result ≡ Ch.handle_depth (option_in clear) }
{
    let x = clear.ok_or(Refusal::NoClearValue)?;
    if in_range(x) {
        Ok(x)
    } else {
        Err(Refusal::ClearValueOutOfRange)
    }
}

// By the row's numbers; its clear value is the float of those bits.
pub fn depth_channel(c: Channel) -> PassChannel<Option<f32>>
    ensures { channel_in result ≡ Ch.depth_channel c }
{
    channel_of(c, f32_of_bits(c.clear))
}

// The same, resolved for a format that has the aspect or lacks it: 18 to 24, or 25.
#[tactic(auto, unfolding(definition::specs::Channel::depth_resolved, definition::specs::Channel::resolve_depth))]
pub fn depth_resolved(has: bool, strict: bool, c: Channel) -> Resolved<f32>
    ensures { answer_in result ≡ Ch.depth_resolved has strict c }
{
    if has {
        depth_channel(c).resolve(strict, handle_depth)
    } else {
        depth_channel(c).resolve_absent(Refusal::DepthOpsWithoutAspect)
    }
}

// ── stencil: a u32, of which the low 8 bits count

// The low 8 bits. A clear value that is absent is 0.
fn handle_stencil(clear: Option<u32>) -> Result<u32, Refusal>
    ensures { handled_in result ≡ Ch.handle_stencil (option_in clear) }
{
    Ok(clear.unwrap_or(0) % 256)
}

// By the row's numbers.
pub fn stencil_channel(c: Channel) -> PassChannel<Option<u32>>
    ensures { channel_in result ≡ Ch.stencil_channel c }
{
    channel_of(c, c.clear)
}

// The same, resolved for a format that has the aspect or lacks it: 18 to 20, 23, 24, or 26.
#[tactic(auto, unfolding(definition::specs::Channel::stencil_resolved, definition::specs::Channel::resolve_stencil))]
pub fn stencil_resolved(has: bool, strict: bool, c: Channel) -> Resolved<u32>
    ensures { answer_in result ≡ Ch.stencil_resolved has strict c }
{
    if has {
        stencil_channel(c).resolve(strict, handle_stencil)
    } else {
        stencil_channel(c).resolve_absent(Refusal::StencilOpsWithoutAspect)
    }
}
