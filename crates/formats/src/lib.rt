// Texture formats by document 01's numbers: their aspects, siblings and bytes per sample, and mip sizes. Every number has an answer: a number that is
// no format has no aspect and costs nothing, and a mip past the last has size 1.
#![tactic(auto)]

ghost use Rattle.std.specs.Prelude.{◌≡◌, ◌+◌, ◌≤◌};
ghost use Rattle.definition.specs.Formats as Fo;
ghost use Rattle.definition.specs.Formats.{is_color, is_depth_stencil, is_format, has_depth, has_stencil, remove_srgb_suffix, target_cost, with_color, mip_size};

use definition::{Aspects, TargetCost};

// W3C "Plain color formats": 1 r8unorm to 14 rg11b10ufloat.
#[tactic(auto, unfolding(definition::specs::Formats::is_color))]
pub fn is_color(format: u32) -> bool
    ensures { result ≡ is_color format }
{
    matches!(format, 1..=14)
}

// The depth and the stencil aspect of a format, in the order of W3C's table of depth-stencil formats.
#[tactic(auto, unfolding(definition::specs::Formats::aspects))]
fn aspects(format: u32) -> Aspects
    ensures { result ≡ Fo.aspects format }
{
    match format {
        20 => Aspects {
            depth: false,
            stencil: true,
        }, // stencil8
        21 => Aspects {
            depth: true,
            stencil: false,
        }, // depth16unorm
        22 => Aspects {
            depth: true,
            stencil: false,
        }, // depth24plus
        23 => Aspects {
            depth: true,
            stencil: true,
        }, // depth24plus-stencil8
        24 => Aspects {
            depth: true,
            stencil: false,
        }, // depth32float
        25 => Aspects {
            depth: true,
            stencil: true,
        }, // depth32float-stencil8
        _ => Aspects {
            depth: false,
            stencil: false,
        },
    }
}

// Whether the format has a depth aspect.
pub fn has_depth(format: u32) -> bool
    ensures { result ≡ has_depth format }
{
    aspects(format).depth
}

// Whether the format has a stencil aspect.
pub fn has_stencil(format: u32) -> bool
    ensures { result ≡ has_stencil format }
{
    aspects(format).stencil
}

// Whether the format has one of the two.
pub fn is_depth_stencil(format: u32) -> bool
    ensures { result ≡ is_depth_stencil format }
{
    has_depth(format) | has_stencil(format)
}

// Whether the number is a format's.
#[tactic(auto, unfolding(definition::specs::Formats::is_format))]
pub fn is_format(format: u32) -> bool
    ensures { result ≡ is_format format }
{
    is_color(format) | is_depth_stencil(format)
}

// The format without its sRGB suffix.
#[tactic(auto, unfolding(definition::specs::Formats::remove_srgb_suffix))]
pub fn remove_srgb_suffix(format: u32) -> u32
    ensures { result ≡ remove_srgb_suffix format }
{
    match format {
        4 => 3, // rgba8unorm-srgb
        6 => 5, // bgra8unorm-srgb
        _ => format,
    }
}

// What a colour of the format costs in a sample, in the order of W3C's table of colour formats.
#[tactic(auto, unfolding(definition::specs::Formats::target_cost))]
fn target_cost(format: u32) -> TargetCost
    ensures { (result ≡ target_cost format) × (1 ≤ result.alignment) × (result.alignment ≤ 4) × (result.cost ≤ 16) }
{
    match format {
        1 => TargetCost {
            cost: 1,
            alignment: 1,
        }, // r8unorm
        2 => TargetCost {
            cost: 2,
            alignment: 1,
        }, // rg8unorm
        3 => TargetCost {
            cost: 8,
            alignment: 1,
        }, // rgba8unorm
        4 => TargetCost {
            cost: 8,
            alignment: 1,
        }, // rgba8unorm-srgb
        5 => TargetCost {
            cost: 8,
            alignment: 1,
        }, // bgra8unorm
        6 => TargetCost {
            cost: 8,
            alignment: 1,
        }, // bgra8unorm-srgb
        7 => TargetCost {
            cost: 2,
            alignment: 2,
        }, // r16float
        8 => TargetCost {
            cost: 4,
            alignment: 2,
        }, // rg16float
        9 => TargetCost {
            cost: 8,
            alignment: 2,
        }, // rgba16float
        10 => TargetCost {
            cost: 4,
            alignment: 4,
        }, // r32float
        11 => TargetCost {
            cost: 8,
            alignment: 4,
        }, // rg32float
        12 => TargetCost {
            cost: 16,
            alignment: 4,
        }, // rgba32float
        13 => TargetCost {
            cost: 8,
            alignment: 4,
        }, // rgb10a2unorm
        14 => TargetCost {
            cost: 8,
            alignment: 4,
        }, // rg11b10ufloat
        _ => TargetCost {
            cost: 0,
            alignment: 1,
        },
    }
}

// The bytes of a sample with a colour of the format more: at most 3 to round up, and 16.
pub fn with_color(bytes: u32, format: u32) -> u64
    ensures { (result ≡ with_color bytes format) × (result ≤ bytes + 19) }
{
    let t = target_cost(format);
    (bytes as u64).next_multiple_of(t.alignment as u64) + t.cost as u64
}

// W3C "logical miplevel-specific texture extent": size divided by 2 to the mip, rounded down, at least 1.
pub fn mip_size(size: u32, mip: u32) -> u32
    ensures { result ≡ mip_size size mip }
{
    size.unbounded_shr(mip).max(1)
}
