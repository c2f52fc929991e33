// The tables of the names of 16-bit UUIDs (names/Uuids): one for each more significant octet that has any, its rows
// by the less significant one.

// Services that are adopted: 0x18.
pub(super) const SERVICES: [u8; 1364] = *b"\x00\x0EGeneric Access\
\x01\x11Generic Attribute\
\x02\x0FImmediate Alert\
\x03\x09Link Loss\
\x04\x08Tx Power\
\x05\x0CCurrent Time\
\x06\x15Reference Time Update\
\x07\x0FNext DST Change\
\x08\x07Glucose\
\x09\x12Health Thermometer\
\x0A\x12Device Information\
\x0D\x0AHeart Rate\
\x0E\x12Phone Alert Status\
\x0F\x07Battery\
\x10\x0EBlood Pressure\
\x11\x12Alert Notification\
\x12\x16Human Interface Device\
\x13\x0FScan Parameters\
\x14\x19Running Speed and Cadence\
\x15\x0DAutomation IO\
\x16\x19Cycling Speed and Cadence\
\x18\x0DCycling Power\
\x19\x17Location and Navigation\
\x1A\x15Environmental Sensing\
\x1B\x10Body Composition\
\x1C\x09User Data\
\x1D\x0CWeight Scale\
\x1E\x0FBond Management\
\x1F\x1DContinuous Glucose Monitoring\
\x20\x19Internet Protocol Support\
\x21\x12Indoor Positioning\
\x22\x0EPulse Oximeter\
\x23\x0AHTTP Proxy\
\x24\x13Transport Discovery\
\x25\x0FObject Transfer\
\x26\x0FFitness Machine\
\x27\x11Mesh Provisioning\
\x28\x0AMesh Proxy\
\x29\x1AReconnection Configuration\
\x3A\x10Insulin Delivery\
\x3B\x0DBinary Sensor\
\x3C\x17Emergency Configuration\
\x3D\x15Authorization Control\
\x3E\x19Physical Activity Monitor\
\x3F\x0CElapsed Time\
\x40\x15Generic Health Sensor\
\x43\x13Audio Input Control\
\x44\x0EVolume Control\
\x45\x15Volume Offset Control\
\x46\x1ECoordinated Set Identification\
\x47\x0BDevice Time\
\x48\x0DMedia Control\
\x49\x15Generic Media Control\
\x4A\x17Constant Tone Extension\
\x4B\x10Telephone Bearer\
\x4C\x18Generic Telephone Bearer\
\x4D\x12Microphone Control\
\x4E\x14Audio Stream Control\
\x4F\x14Broadcast Audio Scan\
\x50\x1CPublished Audio Capabilities\
\x51\x18Basic Audio Announcement\
\x52\x1CBroadcast Audio Announcement\
\x53\x0CCommon Audio\
\x54\x0EHearing Access\
\x55\x19Telephony and Media Audio\
\x56\x1DPublic Broadcast Announcement\
\x57\x16Electronic Shelf Label\
\x58\x0CGaming Audio\
\x59\x17Mesh Proxy Solicitation";

// UUIDs of members: 0xFC.
pub(super) const MEMBERS_FC: [u8; 122] = *b"\x98\x11Ruuvi Innovations\
\xB1\x06Google\
\xB2\x05Apple\
\xC0\x06Xiaomi\
\xC6\x06Wiliot\
\xCC\x0DWiFi Alliance\
\xCF\x06Google\
\xD2\x11Allterco Robotics\
\xF1\x06Google\
\xF6\x14The Linux Foundation";

// 0xFD.
pub(super) const MEMBERS_FD: [u8; 445] = *b"\x03\x06Quuppa\
\x0D\x06Blecon\
\x1D\x13Samsung Electronics\
\x2D\x06Xiaomi\
\x36\x06Google\
\x3D\x0FWoan Technology\
\x43\x05Apple\
\x44\x05Apple\
\x4B\x13Samsung Electronics\
\x50\x24Hangzhou Tuya Information Technology\
\x59\x13Samsung Electronics\
\x5A\x13Samsung Electronics\
\x62\x06Fitbit\
\x63\x06Fitbit\
\x69\x13Samsung Electronics\
\x6C\x13Samsung Electronics\
\x6F\x1CApple, Exposure Notification\
\x7E\x13Samsung Electronics\
\x84\x04Tile\
\x87\x06Google\
\x8C\x06Google\
\x96\x06Google\
\x9E\x15The Coca-Cola Company\
\xAA\x06Xiaomi\
\xAB\x06Xiaomi\
\xAF\x06Wiliot\
\xBD\x0EClover Network\
\xCD\x13Qingping Technology\
\xDB\x13Samsung Electronics\
\xE2\x06Google\
\xF0\x06Google";

// 0xFE.
pub(super) const MEMBERS_FE: [u8; 578] = *b"\x00\x06Amazon\
\x03\x06Amazon\
\x08\x09Microsoft\
\x13\x05Apple\
\x15\x06Amazon\
\x19\x06Google\
\x25\x05Apple\
\x26\x06Google\
\x27\x06Google\
\x2C\x11Google, Fast Pair\
\x33\x07Chipolo\
\x42\x04Nets\
\x50\x06Google\
\x55\x06Google\
\x56\x06Google\
\x58\x14Nordic Semiconductor\
\x59\x14Nordic Semiconductor\
\x61\x16Logitech International\
\x65\x07Chipolo\
\x6A\x16Kontakt Micro-Location\
\x79\x12Zebra Technologies\
\x8A\x05Apple\
\x8B\x05Apple\
\x95\x06Xiaomi\
\x9A\x08Estimote\
\x9F\x06Google\
\xA0\x06Google\
\xAA\x11Google, Eddystone\
\xB2\x09Microsoft\
\xBD\x0EClover Network\
\xC7\x05Apple\
\xC8\x05Apple\
\xC9\x05Apple\
\xCA\x05Apple\
\xCB\x05Apple\
\xCC\x05Apple\
\xCD\x05Apple\
\xCE\x05Apple\
\xCF\x05Apple\
\xD0\x05Apple\
\xD1\x05Apple\
\xD2\x05Apple\
\xD3\x05Apple\
\xD4\x05Apple\
\xD8\x06Google\
\xE4\x14Nordic Semiconductor\
\xE5\x14Nordic Semiconductor\
\xEC\x04Tile\
\xED\x04Tile\
\xF3\x06Google\
\xF4\x06Google\
\xF5\x14Dialog Semiconductor\
\xF9\x06PayPal\
\xFA\x06PayPal\
\xFC\x06Gimbal\
\xFD\x06Gimbal";

// UUIDs of other standards: 0xFF.
pub(super) const STANDARDS: [u8; 285] = *b"\xF2\x05Aliro\
\xF3\x0FFiRa Consortium\
\xF4\x0FFiRa Consortium\
\xF5\x1BCar Connectivity Consortium\
\xF6\x06Matter\
\xF7\x0DZigbee Direct\
\xF8\x0FMopria Alliance\
\xF9\x27FIDO2 client-to-authenticator transport\
\xFA\x0EASTM Remote ID\
\xFB\x1BDirect Thread Commissioning\
\xFC\x17Wireless Power Transfer\
\xFD\x25Universal Second Factor Authenticator\
\xFE\x17Wireless Power Transfer";
