// What the desk check answers, as definitions. Everything is in specs/; here are the records that the
// definitions and the code share, so that a contract needs no translation. Numbers are document 01's.
// The one code here is `black`, what is in `verdicts` and `by_refusal`, and the number of a `Refusal`; it is proved as all code is.
#![tactic(auto)]

pub mod by_refusal;
pub mod refusals;
pub mod sizes;
pub mod verdicts;

ghost use Rattle.std.specs.Prelude.{◌≡◌};
ghost use Rattle.definition.specs.Pass as Ps;

// A texture row. `depth` is the depth of a 3D texture, else the number of layers.
#[derive(Clone, Copy)]
pub struct Texture {
    pub format: u32,
    pub dimension: u32,
    pub width: u32,
    pub height: u32,
    pub depth: u32,
    pub mips: u32,
    pub samples: u32,
    pub usage: u32,
}

// Whether a format has a depth and a stencil aspect.
#[derive(Clone, Copy)]
pub struct Aspects {
    pub depth: bool,
    pub stencil: bool,
}

// What a colour of a format adds to a sample: bytes, and what the sum is rounded up to before.
#[derive(Clone, Copy)]
pub struct TargetCost {
    pub cost: u32,
    pub alignment: u32,
}

// A view row: `mips` mips from `mip` on, `layers` layers from `layer` on, shown in `format`.
// Dimension: 1 D1, 2 D2, 3 D2Array, 4 Cube, 5 CubeArray, 6 D3.
#[derive(Clone, Copy)]
pub struct View {
    pub texture: u32,
    pub dimension: u32,
    pub mip: u32,
    pub mips: u32,
    pub layer: u32,
    pub layers: u32,
    pub usage: u32,
    pub resolvable: u32,
    pub format: u32,
}

// The depth or the stencil part of a pass row. Load: 0 Load, 1 Clear, 2 DontCare, 3 absent.
// Store: 0 Store, 1 Discard, 2 absent. `given` is 1 where the clear value is given.
#[derive(Clone, Copy)]
pub struct Channel {
    pub load: u32,
    pub store: u32,
    pub readonly: u32,
    pub given: u32,
    pub clear: u32,
}

// A colour clear value (the Rust's r, g, b, a).
#[repr(C)]
#[derive(Clone, Copy)]
pub struct Color {
    pub red: f64,
    pub green: f64,
    pub blue: f64,
    pub alpha: f64,
}

// Color::default: zero in each component.
pub fn black() -> Color
    ensures { result ≡ Ps.black }
{
    Color {
        red: 0.0,
        green: 0.0,
        blue: 0.0,
        alpha: 0.0,
    }
}

// A colour slot of a pass row. `sliced` is 1 where the slice is given.
#[derive(Clone, Copy)]
pub struct Slot {
    pub view: u32,
    pub sliced: u32,
    pub slice: u32,
    pub resolve: u32,
    pub load: u32,
    pub store: u32,
    pub clear: Color,
}

// What a check answers: a number (0 accepted), its place, and the place of the view it was compared with.
// Places: 0 to 7 a colour slot, 8 to 15 its resolve target, 16 depth-stencil, 17 none.
#[repr(C)]
#[derive(Clone, Copy)]
pub struct Verdict {
    pub number: u32,
    pub place: u32,
    pub earlier: u32,
}

// What the views accepted so far have fixed. `layers` is 0 before the first; `last` is the place of the
// depth-stencil or colour view accepted last.
#[derive(Clone, Copy)]
pub struct Seen {
    pub layers: u32,
    pub width: u32,
    pub height: u32,
    pub samples: u32,
    pub last: u32,
}

// How far a pass is judged: the verdict, and what its views have fixed.
#[derive(Clone, Copy)]
pub struct Progress {
    pub verdict: Verdict,
    pub seen: Seen,
}

// A surface: texture, mip, layer and slice (TextureSurfaceDiscard). A 3D texture has one layer, another one slice.
#[repr(C)]
#[derive(Clone, Copy)]
pub struct Surface {
    pub texture: u32,
    pub mip: u32,
    pub layer: u32,
    pub slice: u32,
}

// So many mips and layers of a texture, from the first of each on, at one slice (TextureInitRange).
#[derive(Clone, Copy)]
pub struct Range {
    pub texture: u32,
    pub mip: u32,
    pub mips: u32,
    pub layer: u32,
    pub layers: u32,
    pub slice: u32,
}

// Whether an action needs its surfaces initialized, or initializes them itself.
#[derive(Clone, Copy)]
pub enum MemoryInitKind {
    ImplicitlyInitialized,
    NeedsInitializedMemory,
}

// TextureInitTrackerAction.
#[derive(Clone, Copy)]
pub struct Action {
    pub range: Range,
    pub kind: MemoryInitKind,
}

// One attachment of a reply. Usage: 1 COLOR_TARGET, 2 DEPTH_STENCIL_READ, 3 that with RESOURCE, 4 DEPTH_STENCIL_WRITE.
// Operations: 1 Load, 2 Clear, 4 DontCare, plus 8 Store, 16 Discard; 0 for a resolve target. `ops` is of colour or depth.
#[repr(C)]
#[derive(Clone, Copy)]
pub struct Attachment {
    pub view: u32,
    pub usage: u32,
    pub ops: u32,
    pub stencil_ops: u32,
    pub color: Color,
    pub depth: f32,
    pub stencil: u32,
}
