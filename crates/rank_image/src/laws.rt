//! Laws of images: what the tests stand for, and that a rank has one image.

ghost use Rattle.rank_image.specs.Sound.{HeapIsTested, RecordsAreTested, ImagesAreTested, IsOneImage, HasOneImage, NoneIsLonger};

/// Laws: the test of a heap tells whether the bytes spell one, by links, pieces and counts; the test of records
/// whether each call's frame lies in the data stack; and the test of bytes whether they are an image.
pub fn tests_are_relations()
    ensures heap { HeapIsTested }
    ensures records { RecordsAreTested }
    ensures images { ImagesAreTested }
{}

/// Laws: bytes are the image of one rank at most; a rank has one image; and bytes behind an image make it none.
pub fn images_are_one()
    ensures rank { IsOneImage }
    ensures bytes { HasOneImage }
    ensures longer { NoneIsLonger }
{}
