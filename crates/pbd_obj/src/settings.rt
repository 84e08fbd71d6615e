//! What the particles and links of a mesh have in common.
ghost use Rattle.std.specs.Prelude.{◌≡◌};
ghost use Rattle.pbd_obj.specs.Settings.{are_link_settings, are_settings, are_some_settings, stiff_settings};

/// The settings of the links of a kind.
#[derive(Clone, Copy, Debug, PartialEq, Eq)]
pub struct LinkSettings {
    /// The stiffness as a part of 256, in 0..=256.
    pub stiffness: u16,
    /// The length above which they tear, in 0..=2,147,483,648 units of 1/65,536 metre, and 0 where they never do.
    pub tear: i64,
}

/// How a mesh is made cloth.
#[derive(Clone, Copy, Debug, PartialEq, Eq)]
pub struct MeshSettings {
    /// The weight of each particle, from 1.
    pub weight: u16,
    pub stretch: LinkSettings,
    pub shear: LinkSettings,
    /// Without these there are no bend links.
    pub bend: Option<LinkSettings>,
}

impl MeshSettings {
    /// Those of the form `obj`: the weight 1, links of stiffness 256 that never tear, and no bend links.
    pub fn stiff() -> MeshSettings
        ensures { result ≡ stiff_settings }
    {
        let stiff = LinkSettings {
            stiffness: 256,
            tear: 0,
        };
        MeshSettings {
            weight: 1,
            stretch: stiff,
            shear: stiff,
            bend: None,
        }
    }

    /// Whether each number is in its range.
    #[tactic(auto, unfolding(crate::specs::Settings::are_settings))]
    pub fn are_in_range(&self) -> bool
        ensures { result ≡ are_settings self.now }
    {
        1 <= self.weight
            && self.stretch.are_in_range()
            && self.shear.are_in_range()
            && are_some_in_range(self.bend)
    }
}

impl LinkSettings {
    fn are_in_range(&self) -> bool
        ensures { result ≡ are_link_settings self.now }
    {
        self.stiffness <= 256 && 0 <= self.tear && self.tear <= 2_147_483_648
    }
}

fn are_some_in_range(settings: Option<LinkSettings>) -> bool
    ensures { result ≡ are_some_settings settings }
{
    match settings {
        Some(settings) => settings.are_in_range(),
        None => true,
    }
}
