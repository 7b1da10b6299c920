// The calls of parts that are to fail when their image is out next.
ghost use Rattle.std.specs.Prelude.{◌≡◌, map};
ghost use Rattle.wol_bay.specs.Plans.{planned_of, is_for, plans_without};

// A call that is to fail when the image is out next.
#[derive(Drop)]
pub struct Plan {
    pub name: String,
    pub part: u32,
    pub call: u64,
}

impl Plan {
    // Whether it is for this part of this image.
    pub fn is_for(&self, name: &str, place: usize) -> bool
        ensures { result ≡ is_for name.now place (planned_of self.now) }
    {
        self.name.as_str() == name && self.part as usize == place
    }
}

// Forgets the plans for an image.
pub fn drop_plans(plans: &mut Vec<Plan>, name: &str)
    ensures { map planned_of plans.new.items
        ≡ plans_without name.now (map planned_of plans.old.items) }
{
    plans.retain(|plan| plan.name.as_str() != name);
}
