//! What holds of the bytes of all worlds, as the contracts of functions that do nothing.
ghost use Rattle.pbd_encoding.specs.Laws.{OneSceneOneText, RefusedIsExact, ScenesDiffer, SizeIsKnown, StatesTellWorldsApart, ToldIsWritten, WrittenIsTold};

/// The size of a state is known before, from how many particles and links there are.
pub fn sizes_are_known()
    ensures { SizeIsKnown }
{}

/// The state of a world whose numbers are in the ranges of their types has the form of a state of its scene, and tells that
/// world.
pub fn what_is_written_is_told()
    ensures { WrittenIsTold }
{}

/// Bytes that have the form are the state of the world that they tell.
pub fn what_is_told_is_written()
    ensures { ToldIsWritten }
{}

/// The form of bytes is refused at the first byte with which no state of the scene goes on, or at their end where bytes are missing.
pub fn refusals_are_exact()
    ensures { RefusedIsExact }
{}

/// Two worlds of a scene whose numbers are in the ranges of their types never have the same bytes.
pub fn states_tell_worlds_apart()
    ensures { StatesTellWorldsApart }
{}

/// Two sound worlds have the same bytes of a scene exactly where they are of one scene.
pub fn scene_bytes_tell_scenes_apart()
    ensures apart { ScenesDiffer }
    ensures same { OneSceneOneText }
{}
