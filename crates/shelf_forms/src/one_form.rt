ghost use Rattle.shelf_forms.specs.Forms.{OneForm};

/// A line is the text of one form only.
pub fn lines_say_one_thing()
    ensures { OneForm }
{}
