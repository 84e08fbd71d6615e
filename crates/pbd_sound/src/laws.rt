//! What the test of soundness comes to, as the contracts of functions that do nothing.
ghost use Rattle.pbd_sound.specs.Laws.{TestedIsSound, SoundIsTested, ToldIsOfOneScene};

/// Nothing is found to be unsound of a world that is told on a sound one exactly where it is sound.
pub fn soundness_is_tested()
    ensures sound { TestedIsSound }
    ensures tested { SoundIsTested }
{}

/// A world that is told is of the scene on which it is told.
pub fn described_worlds_are_of_one_scene()
    ensures { ToldIsOfOneScene }
{}
