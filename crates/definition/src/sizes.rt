// The sizes and limits that document 01 fixes, and the lengths that follow from them: every number of this kind that the code uses.
// The names are those of `Sizes` in specs/, in the same order; the contract of `every_size` says that the numbers are the same.
ghost use Rattle.std.specs.Prelude.{◌≡◌};
ghost use Rattle.definition.specs.Sizes as D;

// Bytes of the header.
pub const HEADER_BYTES: usize = 44;

// Bytes of a texture row.
pub const TEXTURE_BYTES: usize = 32;

// Bytes of a view row.
pub const VIEW_BYTES: usize = 36;

// Bytes of a pass row.
pub const PASS_BYTES: usize = 504;

// Where the total length stands.
pub const TOTAL_LENGTH_AT: usize = 40;

// Where the colour slots of a pass row start.
pub const SLOT_START: usize = 56;

// Bytes of a colour slot.
pub const SLOT_BYTES: usize = 56;

// The most textures.
pub const MAX_TEXTURES: u32 = 64;

// The most views.
pub const MAX_VIEWS: u32 = 256;

// The most passes.
pub const MAX_PASSES: u32 = 100;

// The most colour slots of a pass.
pub const MAX_SLOTS: u32 = 8;

// The length of the longest session: every table full.
pub const LONGEST_SESSION: usize = HEADER_BYTES
    + TEXTURE_BYTES * (MAX_TEXTURES as usize)
    + VIEW_BYTES * (MAX_VIEWS as usize)
    + PASS_BYTES * (MAX_PASSES as usize);

// The most views of a multiview pass.
pub const MAX_MULTIVIEWS: u32 = 32;

// The largest flags field.
pub const MAX_FLAGS: u32 = 15;

// The largest limit of colour bytes per sample.
pub const MAX_COLOR_BYTES: u32 = 128;

// The greatest width and height of a texture.
pub const MAX_SIZE: u32 = 16384;

// The greatest depth, or the most layers, of a texture.
pub const MAX_LAYERS: u32 = 32;

// The most mips of a texture.
pub const MAX_MIPS: u32 = 15;

// The largest usage field.
pub const MAX_USAGE: u32 = 63;

// The number that stands for no view.
pub const NO_VIEW: u32 = 0xffff_ffff;

// The most surfaces of a session, and so the status bytes that are lent.
pub const MAX_SURFACES: usize = 4096;

// The room of the list of discards.
pub const MAX_DISCARDS: usize = 64;

// The room of the list of actions.
pub const MAX_ACTIONS: usize = 512;

// The room of the list of clears.
pub const MAX_CLEARS: usize = 80;

// Numbers of a discard or a clear.
pub const SURFACE_NUMBERS: usize = 4;

// Numbers of an action.
pub const ACTION_NUMBERS: usize = 7;

// Bytes of a discard or a clear.
pub const SURFACE_BYTES: usize = 4 * SURFACE_NUMBERS;

// Bytes of an action.
pub const ACTION_BYTES: usize = 4 * ACTION_NUMBERS;

// Bytes of the count in front of a list.
pub const COUNT_BYTES: usize = 4;

// Bytes that are lent for the discards.
pub const DISCARDS_BYTES: usize = COUNT_BYTES + SURFACE_BYTES * MAX_DISCARDS;

// Bytes that are lent for the actions.
pub const ACTIONS_BYTES: usize = COUNT_BYTES + ACTION_BYTES * MAX_ACTIONS;

// Bytes that are lent for the clears.
pub const CLEARS_BYTES: usize = COUNT_BYTES + SURFACE_BYTES * MAX_CLEARS;

// The most attachments of a pass: depth-stencil, and each slot's colour and resolve target.
pub const MAX_ATTACHMENTS: usize = 1 + 2 * (MAX_SLOTS as usize);

// Numbers of a pass's row in the reply to a whole session.
pub const ROW_NUMBERS: usize = 9;

// Bytes of a row.
pub const ROW_BYTES: usize = 4 * ROW_NUMBERS;

// Bytes that the rows of every session fit in.
pub const ROWS_BYTES: usize = ROW_BYTES * (MAX_PASSES as usize);

// Every size and limit of this file.
#[derive(Clone, Copy)]
pub struct Sizes {
    pub header_bytes: usize,
    pub texture_bytes: usize,
    pub view_bytes: usize,
    pub pass_bytes: usize,
    pub total_length_at: usize,
    pub slot_start: usize,
    pub slot_bytes: usize,
    pub max_textures: u32,
    pub max_views: u32,
    pub max_passes: u32,
    pub max_slots: u32,
    pub longest_session: usize,
    pub max_multiviews: u32,
    pub max_flags: u32,
    pub max_color_bytes: u32,
    pub max_size: u32,
    pub max_layers: u32,
    pub max_mips: u32,
    pub max_usage: u32,
    pub no_view: u32,
    pub max_surfaces: usize,
    pub max_discards: usize,
    pub max_actions: usize,
    pub max_clears: usize,
    pub surface_numbers: usize,
    pub action_numbers: usize,
    pub surface_bytes: usize,
    pub action_bytes: usize,
    pub count_bytes: usize,
    pub discards_bytes: usize,
    pub actions_bytes: usize,
    pub clears_bytes: usize,
    pub max_attachments: usize,
    pub row_numbers: usize,
    pub row_bytes: usize,
    pub rows_bytes: usize,
}

// All of them, as the definition has them.
pub fn every_size() -> Sizes
    ensures { result ≡ D.every_size }
{
    Sizes {
        header_bytes: HEADER_BYTES,
        texture_bytes: TEXTURE_BYTES,
        view_bytes: VIEW_BYTES,
        pass_bytes: PASS_BYTES,
        total_length_at: TOTAL_LENGTH_AT,
        slot_start: SLOT_START,
        slot_bytes: SLOT_BYTES,
        max_textures: MAX_TEXTURES,
        max_views: MAX_VIEWS,
        max_passes: MAX_PASSES,
        max_slots: MAX_SLOTS,
        longest_session: LONGEST_SESSION,
        max_multiviews: MAX_MULTIVIEWS,
        max_flags: MAX_FLAGS,
        max_color_bytes: MAX_COLOR_BYTES,
        max_size: MAX_SIZE,
        max_layers: MAX_LAYERS,
        max_mips: MAX_MIPS,
        max_usage: MAX_USAGE,
        no_view: NO_VIEW,
        max_surfaces: MAX_SURFACES,
        max_discards: MAX_DISCARDS,
        max_actions: MAX_ACTIONS,
        max_clears: MAX_CLEARS,
        surface_numbers: SURFACE_NUMBERS,
        action_numbers: ACTION_NUMBERS,
        surface_bytes: SURFACE_BYTES,
        action_bytes: ACTION_BYTES,
        count_bytes: COUNT_BYTES,
        discards_bytes: DISCARDS_BYTES,
        actions_bytes: ACTIONS_BYTES,
        clears_bytes: CLEARS_BYTES,
        max_attachments: MAX_ATTACHMENTS,
        row_numbers: ROW_NUMBERS,
        row_bytes: ROW_BYTES,
        rows_bytes: ROWS_BYTES,
    }
}
