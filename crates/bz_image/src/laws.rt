//! Laws of the definition of an image. The calls do nothing; their contracts are the laws.
ghost use Rattle.bz_image.specs.Laws.{FaultsAreFirst};
ghost use Rattle.bz_image.specs.Numbers.{NumbersOfFormats};

/// A fault is told exactly where its rule is the first that is broken: of a head, of a front and of
/// a file.
pub fn faults_are_first()
    ensures { FaultsAreFirst }
{}

/// The value of each public constant of image files.
pub fn numbers_of_formats()
    ensures { NumbersOfFormats }
{}
